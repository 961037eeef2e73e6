// A saved list in bytes: written into a lent row, and read into rows of a list.
#![tactic(auto)]

ghost use Rattle.std.specs.Prelude.{◌≡◌, ◌&&◌, ◌||◌, map, ◌+◌, ◌*◌, ◌≤◌, ◌<◌, length, take, drop, leb};
ghost use Rattle.member.specs.Views.{to_member};
ghost use Rattle.varint.specs.Laid.{Laid, Room};
ghost use Rattle.numbers.specs.Codec.{get_many};
ghost use Rattle.image.specs.Image.{opening, head, entry, state_number, state_of, marked, counted};
ghost use Rattle.image.specs.Forms.{alike, needs_wide, image_of, form_in};
ghost use Rattle.image.specs.Versions.{v1, v2, is_v6, versions, version};
ghost use Rattle.image.specs.Views.{address_bytes, member_bytes, members_bytes, head_bytes, addresses_of, saved_as, written_of, row_of, place_of, entry_at, place_standing, rows_of, opening_of, rows_in_rule, judged_of, nothing, loaded_of};

use address::Address;
use member::Member;
use model::State;

// How many bytes were written; or there was no room for all, and none was.
#[derive(Clone, Copy)]
pub enum Written {
    TooLong,
    Whole(usize),
}

// What is said of an image: 14, 15, 16, or nothing against it.
#[derive(Clone, Copy)]
pub enum Verdict {
    Accepted,
    WrongMark,
    WrongLength,
    OutOfRule,
}

// What stands at a place of an image, whatever the rules say of it.
#[derive(Clone, Copy)]
pub struct Place {
    pub addr: Address,
    pub state: u64,
    pub number: u64,
}

// The places of an image as rows of a list, and whether each state is one.
#[derive(Clone, Copy)]
pub struct Rows {
    pub table: [Member; 64],
    pub order: [Address; 64],
    pub good: bool,
}

// What an image gives: a list in rows, in probing order; or why not, and no list.
#[derive(Clone, Copy)]
pub struct Loaded {
    pub verdict: Verdict,
    pub own: Address,
    pub table: [Member; 64],
    pub order: [Address; 64],
    pub len: usize,
    pub position: usize,
}

// The bytes M, B, R, 0 and the version, as a number. Version 2 is the wide one, in which an address takes 19 bytes for 8.
fn mark_of(wide: bool) -> u64
    ensures { result ≡ opening (version wide) }
{
    if wide {
        return 331825152002;
    }
    331825152001
}

// The bytes of an address.
pub fn address_size(wide: bool) -> usize
    ensures { (result ≡ (version wide).address.width) × (8 ≤ result) × (result ≤ 19) }
{
    if wide {
        return 19;
    }
    8
}

// Mark, version, own address and count.
pub fn head_size(wide: bool) -> usize
    ensures { (result ≡ (head (version wide)).width) × (14 ≤ result) × (result ≤ 25) }
{
    address_size(wide) + 6
}

// Address, state and number.
pub fn place_size(wide: bool) -> usize
    ensures { (result ≡ (entry (version wide)).width) × (17 ≤ result) × (result ≤ 28) }
{
    address_size(wide) + 9
}

// Where place i begins.
pub fn place_at(i: usize, wide: bool) -> usize
    requires { i ≤ 255 }
    ensures { (result ≡ place_standing wide i) × (result ≤ 7165) }
{
    head_size(wide) + i * place_size(wide)
}

// Does an address need version 2?
fn is_v6(a: Address) -> bool
    ensures { result ≡ is_v6 a }
{
    a.family == Address::V6
}

fn either(a: bool, b: bool) -> bool
    ensures { result ≡ (a || b) }
{
    if a {
        return true;
    }
    b
}

// Does a list, its first n rows and its own address, need version 2?
fn needs_wide(own: Address, rows: [Member; 64], n: usize) -> bool
    requires { n ≤ 64 }
    ensures { result ≡ needs_wide versions own (addresses_of rows n) }
{
    let mut found = is_v6(own);
    let mut i: usize = 0;
    while i < n {
        let m = rows[i];
        found = either(found, is_v6(m.addr));
        i += 1;
    }
    found
}

fn state_number(state: State) -> u64
    ensures { result ≡ state_number state }
{
    match state {
        State::Alive => 0,
        State::Pending => 1,
        State::Suspected => 2,
    }
}

// An address in 8 bytes.
fn put_narrow(out: &mut [u8], at: usize, a: Address) -> usize
    requires { Room out.old at (v1.address.put a) }
    ensures { Laid out.old at (v1.address.put a) out.new result }
{
    let port = numbers::put_number(out, at, a.low, 6);
    numbers::put_number(out, port, a.port as u64, 2)
}

// An address in 19 bytes.
fn put_wide(out: &mut [u8], at: usize, a: Address) -> usize
    requires { Room out.old at (v2.address.put a) }
    ensures { Laid out.old at (v2.address.put a) out.new result }
{
    let high = numbers::put_number(out, at, a.family as u64, 1);
    let low = numbers::put_number(out, high, a.high, 8);
    let port = numbers::put_number(out, low, a.low, 8);
    numbers::put_number(out, port, a.port as u64, 2)
}

fn put_address(out: &mut [u8], at: usize, a: Address, wide: bool) -> usize
    requires { Room out.old at (address_bytes wide a) }
    ensures { Laid out.old at (address_bytes wide a) out.new result }
{
    if wide {
        return put_wide(out, at, a);
    }
    put_narrow(out, at, a)
}

fn put_member(out: &mut [u8], at: usize, m: Member, wide: bool) -> usize
    requires { Room out.old at (member_bytes wide (to_member m)) }
    ensures { Laid out.old at (member_bytes wide (to_member m)) out.new result }
{
    let held = m.state;
    let state = put_address(out, at, m.addr, wide);
    let number = numbers::put_number(out, state, state_number(held), 1);
    numbers::put_number(out, number, m.number, 8)
}

fn put_members(out: &mut [u8], at: usize, rows: [Member; 64], n: usize, wide: bool) -> usize
    requires { (n ≤ 64) × Room out.old at (members_bytes wide (map to_member (take n rows))) }
    ensures { Laid out.old at (members_bytes wide (map to_member (take n rows))) out.new result }
{
    let mut next = at;
    let mut i: usize = 0;
    while i < n {
        let m = rows[i];
        next = put_member(out, next, m, wide);
        i += 1;
    }
    next
}

fn put_head(out: &mut [u8], own: Address, n: usize, wide: bool) -> usize
    requires { Room out.old 0 (head_bytes wide own n) }
    ensures { Laid out.old 0 (head_bytes wide own n) out.new result }
{
    let first = numbers::put_number(out, 0, mark_of(wide), 5);
    let count = put_address(out, first, own, wide);
    numbers::put_number(out, count, n as u64, 1)
}

// The image of a list, its first n rows in probing order, if there is room for all of it.
pub fn write(out: &mut [u8], own: Address, rows: [Member; 64], n: usize, position: usize) -> Written
    requires { n ≤ 64 }
    ensures { (result ≡ written_of (image_of versions (saved_as own rows n position)) out.old) × (out.new ≡ row_of (image_of versions (saved_as own rows n position)) out.old) }
{
    let wide = needs_wide(own, rows, n);
    if out.len() < place_at(n, wide) + 1 {
        return Written::TooLong;
    }
    let first = put_head(out, own, n, wide);
    let last = put_members(out, first, rows, n, wide);
    let end = numbers::put_number(out, last, position as u64, 1);
    Written::Whole(end)
}

fn state_of(n: u64) -> State
    ensures { result ≡ state_of n }
{
    if n == 0 {
        return State::Alive;
    }
    if n == 1 {
        return State::Pending;
    }
    State::Suspected
}

fn still(good: bool, state: u64) -> bool
    ensures { result ≡ (good && leb state 2) }
{
    if good {
        return state <= 2;
    }
    false
}

// The record that a place says.
pub fn member_of(p: Place) -> Member
    ensures { result ≡ record { addr = p.addr; state = state_of p.state; number = p.number } }
{
    let addr = p.addr;
    Member {
        addr,
        state: state_of(p.state),
        number: p.number,
    }
}

fn get_narrow(bytes: &[u8], at: usize) -> Address
    requires { at + 8 ≤ length bytes.now }
    ensures { result ≡ v1.address.get (drop at bytes.now) }
{
    let low = numbers::get_number(bytes, at, 6);
    let port = numbers::get_number(bytes, at + 6, 2) as u16;
    Address {
        family: 4,
        port,
        high: 0,
        low,
    }
}

fn get_wide(bytes: &[u8], at: usize) -> Address
    requires { at + 19 ≤ length bytes.now }
    ensures { result ≡ v2.address.get (drop at bytes.now) }
{
    let family = numbers::get_number(bytes, at, 1) as u8;
    let high = numbers::get_number(bytes, at + 1, 8);
    let low = numbers::get_number(bytes, at + 9, 8);
    let port = numbers::get_number(bytes, at + 17, 2) as u16;
    Address {
        family,
        port,
        high,
        low,
    }
}

// The address that the bytes say from a place on.
pub fn get_address(bytes: &[u8], at: usize, wide: bool) -> Address
    requires { at + (version wide).address.width ≤ length bytes.now }
    ensures { result ≡ (version wide).address.get (drop at bytes.now) }
{
    if wide {
        return get_wide(bytes, at);
    }
    get_narrow(bytes, at)
}

// What stands in the bytes from a place on.
pub fn get_place(bytes: &[u8], at: usize, wide: bool) -> Place
    requires { at + (entry (version wide)).width ≤ length bytes.now }
    ensures { result ≡ place_of (entry_at wide bytes.now at) }
{
    let addr = get_address(bytes, at, wide);
    let after = at + address_size(wide);
    let state = numbers::get_number(bytes, after, 1);
    let number = numbers::get_number(bytes, after + 1, 8);
    Place {
        addr,
        state,
        number,
    }
}

fn get_rows(bytes: &[u8], n: usize, wide: bool) -> Rows
    requires { (n ≤ 64) × (place_standing wide n ≤ length bytes.now) }
    ensures { result ≡ rows_of (get_many (entry (version wide)) n (drop (head (version wide)).width bytes.now)) }
{
    let mut table = [Member::none(); 64];
    let mut order = [address::blank(); 64];
    let mut good = true;
    let mut i: usize = 0;
    while i < n {
        let p = get_place(bytes, place_at(i, wide), wide);
        let addr = p.addr;
        table[i] = member_of(p);
        order[i] = addr;
        good = still(good, p.state);
        i += 1;
    }
    Rows { table, order, good }
}

// Does it open with the mark and this version?
fn opens_with(bytes: &[u8], wide: bool) -> bool
    ensures { result ≡ marked (version wide) bytes.now }
{
    if bytes.len() < 5 {
        return false;
    }
    numbers::get_number(bytes, 0, 5) == mark_of(wide)
}

// Is it an image of version 2?
pub fn is_wide(bytes: &[u8]) -> bool
    ensures { result ≡ marked v2 bytes.now }
{
    opens_with(bytes, true)
}

// 14: does it open with the mark and a version?
pub fn is_marked(bytes: &[u8]) -> bool
    ensures { result ≡ marked (form_in versions bytes.now) bytes.now }
{
    opens_with(bytes, is_wide(bytes))
}

// The count as it stands.
pub fn count_in(bytes: &[u8], wide: bool) -> usize
    requires { (head (version wide)).width ≤ length bytes.now }
    ensures { (result ≡ counted (version wide) bytes.now) × (result < 256) }
{
    numbers::get_number(bytes, head_size(wide) - 1, 1) as usize
}

// 14 and 15: is it an image, and as long as it says?
fn opening(bytes: &[u8]) -> Verdict
    ensures { result ≡ opening_of bytes.now }
{
    if !is_marked(bytes) {
        return Verdict::WrongMark;
    }
    let wide = is_wide(bytes);
    if bytes.len() < head_size(wide) {
        return Verdict::WrongLength;
    }
    let count = count_in(bytes, wide);
    if bytes.len() != place_at(count, wide) + 1 {
        return Verdict::WrongLength;
    }
    Verdict::Accepted
}

fn refused(verdict: Verdict) -> Loaded
    ensures value { result ≡ nothing verdict }
    ensures within { result.len ≤ 64 }
{
    Loaded {
        verdict,
        own: address::blank(),
        table: [Member::none(); 64],
        order: [address::blank(); 64],
        len: 0,
        position: 0,
    }
}

// Has the image the version of its list?
fn in_version(own: Address, table: [Member; 64], n: usize, wide: bool) -> bool
    requires { n ≤ 64 }
    ensures { result ≡ alike wide (needs_wide versions own (addresses_of table n)) }
{
    let needed = needs_wide(own, table, n);
    if wide {
        return needed;
    }
    !needed
}

// 16: is each field in rule? That no address stands twice is told by the pass that tests a list, which marks.
fn in_rule(own: Address, rows: Rows, n: usize, position: usize, wide: bool) -> bool
    requires { n ≤ 64 }
    ensures { result ≡ rows_in_rule wide own rows n position }
{
    let order = rows.order;
    let table = rows.table;
    let own_in_range = address::in_range(own);
    let in_range = member::sound::all_in_range(order, n);
    let distinct = member::sound::matches(order, order, n);
    let placed = member::sound::well_placed(position, n);
    let versioned = in_version(own, table, n, wide);
    let fields = model::both(model::both(own_in_range, rows.good), in_range);
    let listed = model::both(model::both(fields, distinct), placed);
    model::both(listed, versioned)
}

fn judged(own: Address, rows: Rows, n: usize, position: usize, wide: bool) -> Loaded
    requires { n ≤ 64 }
    ensures value { result ≡ judged_of wide own rows n position }
    ensures within { result.len ≤ 64 }
{
    if !in_rule(own, rows, n, position, wide) {
        return refused(Verdict::OutOfRule);
    }
    let table = rows.table;
    let order = rows.order;
    Loaded {
        verdict: Verdict::Accepted,
        own,
        table,
        order,
        len: n,
        position,
    }
}

// The list that an image of the right mark and length gives, or 16.
fn listed(bytes: &[u8]) -> Loaded
    requires { opening_of bytes.now ≡ Verdict.Accepted }
    ensures value { result ≡ loaded_of bytes.now }
    ensures within { result.len ≤ 64 }
{
    let wide = is_wide(bytes);
    let n = count_in(bytes, wide);
    if 64 < n {
        return refused(Verdict::OutOfRule);
    }
    let own = get_address(bytes, 5, wide);
    let position = numbers::get_number(bytes, place_at(n, wide), 1) as usize;
    let rows = get_rows(bytes, n, wide);
    judged(own, rows, n, position, wide)
}

// The list that an image gives, or 14, 15 or 16.
pub fn load(bytes: &[u8]) -> Loaded
    ensures value { result ≡ loaded_of bytes.now }
    ensures within { result.len ≤ 64 }
{
    let opened = opening(bytes);
    match opened {
        Verdict::Accepted => listed(bytes),
        Verdict::WrongMark => refused(Verdict::WrongMark),
        Verdict::WrongLength => refused(Verdict::WrongLength),
        Verdict::OutOfRule => refused(Verdict::OutOfRule),
    }
}

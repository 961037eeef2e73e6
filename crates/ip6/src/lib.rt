// The text of an IPv6 address with its port, by RFC 5952: what it is, and how long.
#![tactic(auto)]

ghost use Rattle.std.specs.Prelude.{◌≡◌, ◌≤◌, ◌<◌, ◌+◌, ◌/◌, ◌%◌, length};
ghost use Rattle.ip6.specs.Text6.{decimal, hex, groups, dotted, mapped as mapped_to, text6};
ghost use Rattle.ip6.specs.Scanning.{longer as longer_of, stepped, scan};
ghost use Rattle.ip6.specs.Lengths.{one_if, length_of};

// What is counted of the groups from some place on.
#[derive(Clone, Copy)]
pub struct Scan {
    pub digits: u64,
    pub run: u64,
    pub longest: u64,
    pub place: u64,
}

// How many hexadecimal digits a group has.
fn hex_len(n: u64) -> u64
    requires { n < 65536 }
    ensures { (result ≡ length (hex n)) × (1 ≤ result) × (result ≤ 4) }
{
    if n < 16 {
        return 1;
    }
    if n < 256 {
        return 2;
    }
    if n < 4096 {
        return 3;
    }
    4
}

// How many decimal digits a number has.
fn decimal_len(n: u64) -> u64
    requires { n < 65536 }
    ensures { (result ≡ length (decimal n)) × (1 ≤ result) × (result ≤ 5) }
{
    if n < 10 {
        return 1;
    }
    if n < 100 {
        return 2;
    }
    if n < 1000 {
        return 3;
    }
    if n < 10000 {
        return 4;
    }
    5
}

// The run of zero groups that starts at a group.
fn longer(g: u64, run: u64) -> u64
    requires { run < 1000 }
    ensures { (result ≡ longer_of g run) × (result ≤ run + 1) }
{
    if g == 0 {
        return run + 1;
    }
    0
}

// One group more in front of those that were counted.
fn step(g: u64, s: Scan) -> Scan
    requires { (g < 65536) × (s.digits < 1000) × (s.run ≤ s.longest) × (s.longest < 1000) × (s.place < 1000) }
    ensures { (result ≡ stepped g s) × (result.digits ≤ s.digits + 4) × (result.run ≤ result.longest) × (result.longest ≤ s.longest + 1) × (result.place ≤ s.place + 1) }
{
    let digits = hex_len(g) + s.digits;
    let run = longer(g, s.run);
    if s.longest <= run {
        return Scan {
            digits,
            run,
            longest: run,
            place: 0,
        };
    }
    Scan {
        digits,
        run,
        longest: s.longest,
        place: s.place + 1,
    }
}

// Four groups in front of those that were counted.
fn four(word: u64, s: Scan) -> Scan
    requires { (s.digits < 100) × (s.run ≤ s.longest) × (s.longest < 100) × (s.place < 100) }
    ensures { (result ≡ stepped (word / 281474976710656 % 65536) (stepped (word / 4294967296 % 65536) (stepped (word / 65536 % 65536) (stepped (word % 65536) s))))
        × (result.digits ≤ s.digits + 16) × (result.run ≤ result.longest) × (result.longest ≤ s.longest + 4) × (result.place ≤ s.place + 4) }
{
    let last = step(word % 65536, s);
    let third = step(word / 65536 % 65536, last);
    let second = step(word / 4294967296 % 65536, third);
    step(word / 281474976710656 % 65536, second)
}

// What is counted of all eight groups.
pub fn scanned(high: u64, low: u64) -> Scan
    ensures { (result ≡ scan (groups high low)) × (result.digits ≤ 32) × (result.run ≤ result.longest) × (result.longest ≤ 8) × (result.place ≤ 8) }
{
    let none = Scan {
        digits: 0,
        run: 0,
        longest: 0,
        place: 0,
    };
    let back = four(low, none);
    four(high, back)
}

// 1 if two numbers are the same, else 0.
fn one_if(a: u64, b: u64) -> u64
    ensures { (result ≡ one_if a b) × (result ≤ 1) }
{
    if a == b {
        return 1;
    }
    0
}

// The length of eight groups with their colons.
fn plain_len(s: Scan) -> u64
    requires { (s.digits ≤ 32) × (s.longest ≤ s.digits) × (s.place + s.longest ≤ 8) }
    ensures { (result ≡ length_of s) × (2 ≤ result) × (result ≤ 39) }
{
    if s.longest < 2 {
        return s.digits + 7;
    }
    let first = one_if(s.place, 0);
    let last = one_if(s.place + s.longest, 8);
    s.digits - s.longest + (8 - s.longest + first + last)
}

// The length of a.b.c.d.
fn dotted_len(low: u64) -> u64
    ensures { (result ≡ length (dotted low)) × (7 ≤ result) × (result ≤ 23) }
{
    let first = decimal_len(low / 16777216 % 256);
    let second = decimal_len(low / 65536 % 256);
    let third = decimal_len(low / 256 % 256);
    let fourth = decimal_len(low % 256);
    first + second + third + fourth + 3
}

// Is it an IPv4 address in IPv6 form?
pub fn mapped(high: u64, low: u64) -> bool
    ensures { result ≡ mapped_to high low }
{
    if high == 0 {
        return low / 4294967296 == 65535;
    }
    false
}

// The length of an address's text with its port.
pub fn text_len6(high: u64, low: u64, port: u64) -> u64
    requires { port < 65536 }
    ensures { (result ≡ length (text6 high low port)) × (6 ≤ result) × (result ≤ 47) }
{
    let behind = decimal_len(port) + 3;
    if mapped(high, low) {
        return dotted_len(low) + 7 + behind;
    }
    plain_len(scanned(high, low)) + behind
}

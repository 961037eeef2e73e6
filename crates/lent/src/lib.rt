// The rows that a host lends: read into an array of the call, and written from one.
#![tactic(auto)]

ghost use Rattle.std.specs.Prelude.{◌≡◌, ◌++◌, ◌≤◌, length, take, drop, replicate};
ghost use Rattle.model.specs.Rows.{pad_to};
ghost use Rattle.types.specs.Views.{no_gossip};
ghost use Rattle.lent.specs.Lent.{at_most64};

use types::{Event, Gossip};

// At most 64.
fn capped(n: usize) -> usize
    ensures { (result ≡ at_most64 n) × (result ≤ n) × (result ≤ 64) }
{
    if 64 < n { 64 } else { n }
}

// A row of no gossip.
fn blank() -> [Gossip; 64]
    ensures { result ≡ replicate 64 no_gossip }
{
    let nothing = Gossip {
        event: Event::Nothing,
    };
    [nothing; 64]
}

// The first records of a lent row, laid over the first of an array.
fn rows_in(s: &[Gossip], n: usize, a: [Gossip; 64]) -> [Gossip; 64]
    requires { (n ≤ length s.now) × (n ≤ 64) }
    ensures { result ≡ take n s.now ++ drop n a }
{
    let mut a = a;
    let mut i = 0;
    while i < n {
        a[i] = s[i];
        i += 1;
    }
    a
}

// The first 64 records of a lent row, and no gossip behind them.
pub fn first_64(s: &[Gossip]) -> [Gossip; 64]
    ensures { result ≡ pad_to 64 no_gossip (take 64 s.now) }
{
    let n = capped(s.len());
    rows_in(s, n, blank())
}

// The first records of an array, written to the first places of a lent row. The places past them stay as lent.
pub fn write_64(out: &mut [Gossip], a: [Gossip; 64], k: usize)
    requires { (k ≤ length out.old) × (k ≤ 64) }
    ensures { out.new ≡ take k a ++ drop k out.old }
{
    let mut i = 0;
    while i < k {
        out[i] = a[i];
        i += 1;
    }
}

// The same for the events of a message.
pub fn write_65(out: &mut [Gossip], a: [Gossip; 65], k: usize)
    requires { (k ≤ length out.old) × (k ≤ 65) }
    ensures { out.new ≡ take k a ++ drop k out.old }
{
    let mut i = 0;
    while i < k {
        out[i] = a[i];
        i += 1;
    }
}

// The same for the gossip of a step.
pub fn write_256(out: &mut [Gossip], a: [Gossip; 256], k: usize)
    requires { (k ≤ length out.old) × (k ≤ 256) }
    ensures { out.new ≡ take k a ++ drop k out.old }
{
    let mut i = 0;
    while i < k {
        out[i] = a[i];
        i += 1;
    }
}

// The same for the one event of a step or a timer call.
pub fn write_1(out: &mut [Gossip], a: [Gossip; 1], k: usize)
    requires { (k ≤ length out.old) × (k ≤ 1) }
    ensures { out.new ≡ take k a ++ drop k out.old }
{
    let mut i = 0;
    while i < k {
        out[i] = a[i];
        i += 1;
    }
}

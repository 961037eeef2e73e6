// The tool for the person at the rack: an image on standard input, what can be kept of it on standard output, and a line for each place on standard error.
#![tactic(auto)]

mod tell;

use salvage::Ends;
use std::io::Write;
use std::process::ExitCode;
use streams::read_full;
use tell::{any_dropped, put_places, put_refusal};

// How a salvage ended.
#[derive(Clone, Copy)]
enum Code {
    NothingDropped,
    SomethingDropped,
    Refused,
    OutputLost,
}

fn end(code: Code) -> ExitCode {
    match code {
        Code::NothingDropped => ExitCode::from(0),
        Code::SomethingDropped => ExitCode::from(1),
        Code::Refused => ExitCode::from(3),
        Code::OutputLost => ExitCode::from(4),
    }
}

// Whether the first bytes of a row got through.
fn hand_over<W: Write>(to: &mut W, bytes: &[u8], length: usize) -> bool {
    if length <= bytes.len() {
        return to.write_all(&bytes[0..length]).is_ok();
    }
    false
}

fn salvage_all<W: Write, E: Write>(
    to: &mut W,
    err: &mut E,
    image: &[u8],
    out: &mut [u8],
    text: &mut [u8],
) -> Code {
    let done = salvage::salvage(image, out);
    let ends = done.ends;
    match ends {
        Ends::Whole(length) => {
            let told = put_places(err, text, image, done);
            let is_told = hand_over(err, text, told);
            if !model::both(hand_over(to, out, length), is_told) {
                return Code::OutputLost;
            }
            if any_dropped(done) {
                return Code::SomethingDropped;
            }
            Code::NothingDropped
        }
        Ends::Refused(refusal) => {
            let told = put_refusal(err, text, refusal);
            hand_over(err, text, told);
            Code::Refused
        }
    }
}

// No place is read past the first 4096 bytes: an image has 1818 at most, and whatever follows is ignored.
fn main(rt: HostRuntime) -> ExitCode {
    let mut space = [0u8; 4096];
    let mut out = [0u8; 4096];
    let mut text = [0u8; 65536];
    let got = read_full(&mut rt.stdin(), &mut space);
    end(salvage_all(
        &mut rt.stdout(),
        &mut rt.stderr(),
        &space[..got],
        &mut out,
        &mut text,
    ))
}

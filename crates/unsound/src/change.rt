// One change of a node, read from its text: a letter, a space, and numbers parted by one space.
//   s WHICH VALUE            a setting, in the order of `Settings`
//   o ADDRESS                the own address
//   n LENGTH POSITION        the list's length, and the position
//   m PLACE ADDRESS STATE NUMBER        a member; state 0 Alive, 1 Pending, 2 Suspected
//   p PLACE ADDRESS          a place of the probing order
//   l ALIVE PENDING SUSPECTED           the lamps
//   a PLACE KIND FROM SUBJECT NUMBER SENDS SIZE LENGTH      an entry of the alive heap, and its length
//   x ..                     the same of the deceased heap
//   t PLACE ADDRESS NUMBER TICK LENGTH  a timer, and how many run
//   d PLACE ADDRESS NUMBER LENGTH       a departed address, and how many there are
use crate::made::{
    alive_at, at, deceased_at, departed_at, entry, lamps, left, listed, lit, member, member_at,
    ordered, owned, set_up, timer, timer_at,
};
use node::Node;
use words::{NumberAt, number_at};

// The numbers from a place on, eight at most; 0 stands for those that are not there.
fn numbers_at(s: &[u8], from: usize) -> [u64; 8] {
    let mut numbers = [0u64; 8];
    let mut at = from;
    for i in 0..8 {
        let NumberAt::Found { value, next } = number_at(s, at) else {
            return numbers;
        };
        numbers[i] = value;
        at = next;
    }
    numbers
}

fn changed_heap(node: Node, letter: u8, v: [u64; 8]) -> Node {
    let held = entry(v[1], at(v[2]), at(v[3]), v[4], v[5], v[6]);
    if letter == b'a' {
        return alive_at(node, v[0] as usize, held, v[7] as usize);
    }
    deceased_at(node, v[0] as usize, held, v[7] as usize)
}

// A text that says none of these changes nothing: its line then reads as that of a sound node.
pub fn changed(node: Node, s: &[u8]) -> Node {
    if s.len() == 0 {
        return node;
    }
    let letter = s[0];
    let v = numbers_at(s, 2);
    let first = v[0] as usize;
    match letter {
        b's' => set_up(node, v[0], v[1]),
        b'o' => owned(node, at(v[0])),
        b'n' => listed(node, first, v[1] as usize),
        b'm' => member_at(node, first, member(at(v[1]), v[2], v[3])),
        b'p' => ordered(node, first, at(v[1])),
        b'l' => lamps(node, lit(v[0], v[1], v[2])),
        b'a' => changed_heap(node, letter, v),
        b'x' => changed_heap(node, letter, v),
        b't' => timer_at(node, first, timer(at(v[1]), v[2], v[3]), v[4] as usize),
        b'd' => departed_at(node, first, left(at(v[1]), v[2]), v[3] as usize),
        _ => node,
    }
}

// The list of a node saved in bytes, and a node made from them. Neither needs a row of records.
ghost use Rattle.std.specs.Prelude.{◌≡◌};
ghost use Rattle.saving.specs.Views.{Saves, restored_of};

use model::Settings;
use node::Node;
use saving::{Restored, Saving};

// The list, saved to a lent row: 2, then 12 if the row is shorter than the image. Refused, no place of the row is touched; places past the last stay as lent.
pub fn save(node: Node, out: &mut [u8]) -> Saving
    ensures { Saves node out.old result out.new }
{
    saving::save(node, out)
}

// A node from a saved list, and a fresh wait record: 14, 15, 16, then 1. Refused, there is no node: its place holds zeros.
pub fn restore(bytes: &[u8], settings: Settings, tick: u32) -> Restored
    ensures { result ≡ restored_of bytes.now settings tick }
{
    saving::restore(bytes, settings, tick)
}

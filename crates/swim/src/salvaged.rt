// What can be kept of a damaged saved list. It needs no node and no row of records.
ghost use Rattle.salvage.specs.Views.{Salvages};

use salvage::Salvaged;

// The records of an image that are in rule, as an image in a lent row, with a word for each place: 14, then 16 if the head is short or its own address out of
// range, then 12 if the row is shorter than the result. Refused, no place of the row is touched; places past the last stay as lent.
pub fn salvage(bytes: &[u8], out: &mut [u8]) -> Salvaged
    ensures { Salvages bytes.now out.old result out.new }
{
    salvage::salvage(bytes, out)
}

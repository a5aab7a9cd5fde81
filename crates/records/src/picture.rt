// A record that was taken, with the slice that holds it.
ghost use Rattle.records.specs.inner.Placed.{Sound};

use crate::record::Frame;

// A record that was taken, its planes in the slice.
#[derive(Clone, Copy)]
pub struct Picture<'a> {
    pub record: &'a [u8],
    pub frame: Frame,
    pub ghost sound: { Sound «record».now frame },
}

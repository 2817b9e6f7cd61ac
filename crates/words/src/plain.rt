// A reader, as its methods find it.
ghost use Rattle.std.specs.Prelude.{◌≤◌, length};

// What is before `at` has been read.
#[derive(Drop)]
pub struct Reader<'a> {
    pub(crate) text: &'a [u8],
    pub(crate) at: usize,
    ghost within: { at ≤ length text.now },
}

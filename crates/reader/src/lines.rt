ghost use Rattle.std.specs.Prelude.{◌+◌, ◌<◌, ◌^◌, length};

mod methods;

// A line of a text, without the byte that ends it.
#[derive(Clone, Copy)]
pub(crate) struct Line<'a> {
    number: usize,
    bytes: &'a [u8],
}

// The lines of a text in turn: what is left of the text, and the number of its first line.
#[derive(Clone, Copy)]
pub(crate) struct Lines<'a> {
    rest: &'a [u8],
    number: usize,
    ghost counted: { number + length rest.now < 2 ^ 64 },
}

// The shape of a frame for each command code: which codes there are, how many bytes their frames have, and where
// odd bits are allowed.
ghost use Rattle.std.specs.Prelude.{◌≡◌, ℕ, Some};
ghost use Rattle.ft25h08_commands.specs.Shapes.{shape_of, table, fits};

/// What a frame of a command looks like.
#[derive(Clone, Copy)]
pub enum Shape {
    /// the code alone
    Code,
    /// the code, then any number of bytes; odd bits allowed
    CodeRead,
    /// the code and one or two status bytes
    CodeStatus,
    /// the code and the address
    Address,
    /// the code, the address, then any number of bytes; odd bits allowed
    AddressRead,
    /// the code, the address, a dummy byte, then any number of bytes; odd bits allowed
    AddressDummyRead,
    /// the code, the address and at least one data byte
    AddressData,
}

// not a command
const N: Option<Shape> = None;

const C: Option<Shape> = Some(Shape::Code);

const V: Option<Shape> = Some(Shape::CodeRead);

const S: Option<Shape> = Some(Shape::CodeStatus);

const A: Option<Shape> = Some(Shape::Address);

const R: Option<Shape> = Some(Shape::AddressRead);

const F: Option<Shape> = Some(Shape::AddressDummyRead);

const D: Option<Shape> = Some(Shape::AddressData);

// The row is the high digit of the code, the column the low one.
const SHAPES: [[Option<Shape>; 16]; 16] = [
    [N, S, D, R, C, V, C, N, N, N, N, F, N, N, N, N], // 00
    [N, N, N, N, N, N, N, N, N, N, N, N, N, N, N, N], // 10
    [A, N, N, N, N, N, N, N, N, N, N, N, N, N, N, N], // 20
    [N, N, D, N, N, V, N, N, N, N, N, F, N, N, N, N], // 30
    [N, N, D, N, C, N, N, N, F, N, N, N, N, N, N, N], // 40
    [N, N, A, N, N, N, N, N, N, N, N, N, N, N, N, N], // 50
    [C, N, N, N, N, N, N, N, N, N, N, F, N, N, N, N], // 60
    [N, N, N, N, N, N, N, N, N, N, N, N, N, N, N, N], // 70
    [N, N, N, N, N, N, N, N, N, N, N, N, N, N, N, N], // 80
    [N, N, N, N, N, N, N, N, N, N, N, N, N, N, N, N], // 90
    [N, N, N, N, N, N, N, N, N, N, N, V, N, N, N, N], // A0
    [N, N, N, N, N, N, N, N, N, C, N, N, N, N, N, N], // B0
    [N, N, N, N, N, N, N, C, N, N, N, N, N, N, N, N], // C0
    [N, N, N, N, N, N, N, N, A, N, N, N, N, N, N, N], // D0
    [N, N, N, N, N, N, N, N, N, N, N, N, N, N, N, N], // E0
    [N, N, N, N, N, N, N, N, N, N, N, N, N, N, N, N], // F0
];

// An entry of a table that passes the one test: it is the rule at every code.
fn entry(shapes: &[[Option<Shape>; 16]; 16], code: u8) -> Option<Shape>
    requires { shapes.now ≡ table shape_of }
    ensures { result ≡ shape_of code }
{
    shapes[code as usize / 16][code as usize % 16]
}

/// The shape that goes with a code, if it is a command at all.
pub(crate) fn shape_of(code: u8) -> Option<Shape>
    ensures { result ≡ shape_of code }
{
    entry(&SHAPES, code)
}

impl Shape {
    /// Whether a frame of `n` bytes and `odd` further bits has this shape.
    pub(crate) fn fits(self, n: usize, odd: u8) -> bool
        ensures { result ≡ fits (Some self) n odd }
    {
        match self {
            Shape::Code => n == 1 && odd == 0,
            Shape::CodeRead => n >= 1,
            Shape::CodeStatus => (n == 2 || n == 3) && odd == 0,
            Shape::Address => n == 4 && odd == 0,
            Shape::AddressRead => n >= 4,
            Shape::AddressDummyRead => n >= 5,
            Shape::AddressData => n >= 5 && odd == 0,
        }
    }
}

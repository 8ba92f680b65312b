//! The links of a module, and the files on them.

ghost use Rattle.std.specs.Prelude.{◌≡◌};
ghost use Rattle.command_line.specs.Links.{input_names, names_of, output_names};

/// One of something for each of the four links of one direction.
#[derive(Clone, Copy)]
pub struct OnLinks<T> {
    pub first: T,
    pub second: T,
    pub third: T,
    pub fourth: T,
}

/// The names of the links of one direction.
pub type LinkNames = OnLinks<&'static str>;

/// The paths of the files on the links of one direction, where they are given.
pub type LinkPaths<'a> = OnLinks<Option<&'a str>>;

/// `in0` to `in3`.
pub fn input_names() -> LinkNames
    ensures { names_of result ≡ input_names }
{
    OnLinks {
        first: "in0",
        second: "in1",
        third: "in2",
        fourth: "in3",
    }
}

/// `out0` to `out3`.
pub fn output_names() -> LinkNames
    ensures { names_of result ≡ output_names }
{
    OnLinks {
        first: "out0",
        second: "out1",
        third: "out2",
        fourth: "out3",
    }
}

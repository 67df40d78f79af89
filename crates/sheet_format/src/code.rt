// The kinds of instruction, and the operation code of a row's first byte.
ghost use Rattle.std.specs.Prelude.{◌≡◌};
ghost use Rattle.sheet_format.specs.Code.{code_from};

#[derive(Clone, Copy, Debug, PartialEq, Eq)]
pub enum Code {
    Set,
    Add,
    Load,
    Store,
    Lock,
    Unlock,
    Skip,
    LL,
    LS,
    SS,
    SL,
}

// A code that is none of these is read as SL: 14 at levels 1 and 3, and 15 at level 2.
impl From<u32> for Code {
    ghost from_gives = { λ o r. r ≡ code_from o };

    fn from(code: u32) -> Code {
        match code {
            1 => Code::Set,
            2 => Code::Add,
            3 => Code::Load,
            4 => Code::Store,
            5 => Code::Lock,
            6 => Code::Unlock,
            7 => Code::Skip,
            11 => Code::LL,
            12 => Code::LS,
            13 => Code::SS,
            _ => Code::SL,
        }
    }
}

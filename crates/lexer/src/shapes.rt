// The command that a name selects, and what follows the name.
ghost use Rattle.std.specs.Prelude.{◌≡◌};
ghost use Rattle.definitions.specs.Commands.{shape_of};
ghost use Rattle.lexer.specs.Shapes.{shape_in};

// Commands that nothing follows.
#[derive(Clone, Copy)]
pub enum Plain {
    Next,
    Previous,
    Copy,
    PointStart,
    Right,
    Left,
    CutByte,
    Lower,
    Upper,
    Quit,
    Cancel,
}

#[derive(Clone, Copy)]
pub enum Seek {
    Forward,
    Backward,
    Deleting,
}

#[derive(Clone, Copy)]
pub enum Change {
    After,
    Before,
    Exchange,
}

#[derive(Clone, Copy)]
pub enum Shape {
    Plain(Plain),
    // AGP
    Leaves,
    // A search expression follows.
    Seeks(Seek),
    // M: a line
    Moves,
    // D: lines
    Deletes,
    // IS: a string
    InsertsString,
    // I: a line, and lines of the script
    InsertsLines,
    // R: lines, and lines of the script
    Replaces,
    // A qualified string and a second string; true: p stands after it.
    Alters(Change, bool),
    // PA (true), PB: a qualified string
    Points(bool),
    // SA (true), SB: a qualified string
    Splits(bool),
    // CL: a string
    Joins,
    // GE, GA, GB: two strings
    Globals(Change),
    // WORD: a string
    Names,
    // RPT: a command or group
    Repeats,
    // IF (true), UL: a search expression, a command or group
    Branches(bool),
    // IFEOF: a command or group
    BranchesEof,
    // WH (true), UT: a search expression, a command or group
    Loops(bool),
    Unknown,
}

// The command with this name: its first four letters packed, or its one byte.
pub fn command(letters: u32) -> Shape
    ensures { shape_of letters ≡ shape_in result }
{
    match letters {
        // M
        77 => Shape::Moves,
        // N
        78 => Shape::Plain(Plain::Next),
        // P
        80 => Shape::Plain(Plain::Previous),
        // F
        70 => Shape::Seeks(Seek::Forward),
        // BF
        16966 => Shape::Seeks(Seek::Backward),
        // DF
        17478 => Shape::Seeks(Seek::Deleting),
        // D
        68 => Shape::Deletes,
        // IS
        18771 => Shape::InsertsString,
        // IC
        18755 => Shape::Plain(Plain::Copy),
        // I
        73 => Shape::InsertsLines,
        // R
        82 => Shape::Replaces,
        // A
        65 => Shape::Alters(Change::After, false),
        // B
        66 => Shape::Alters(Change::Before, false),
        // E
        69 => Shape::Alters(Change::Exchange, false),
        // AP
        16720 => Shape::Alters(Change::After, true),
        // BP
        16976 => Shape::Alters(Change::Before, true),
        // EP
        17744 => Shape::Alters(Change::Exchange, true),
        // PA
        20545 => Shape::Points(true),
        // PB
        20546 => Shape::Points(false),
        // PR
        20562 => Shape::Plain(Plain::PointStart),
        // SA
        21313 => Shape::Splits(true),
        // SB
        21314 => Shape::Splits(false),
        // CL
        17228 => Shape::Joins,
        // GE
        18245 => Shape::Globals(Change::Exchange),
        // GA
        18241 => Shape::Globals(Change::After),
        // GB
        18242 => Shape::Globals(Change::Before),
        // CG
        17223 => Shape::Plain(Plain::Cancel),
        // WORD
        1464816196 => Shape::Names,
        // >
        62 => Shape::Plain(Plain::Right),
        // <
        60 => Shape::Plain(Plain::Left),
        // #
        35 => Shape::Plain(Plain::CutByte),
        // $
        36 => Shape::Plain(Plain::Lower),
        // %
        37 => Shape::Plain(Plain::Upper),
        // RPT
        5394516 => Shape::Repeats,
        // IF
        18758 => Shape::Branches(true),
        // UL
        21836 => Shape::Branches(false),
        // IFEO
        1229342031 => Shape::BranchesEof,
        // WH
        22344 => Shape::Loops(true),
        // UT
        21844 => Shape::Loops(false),
        // AGP
        4278096 => Shape::Leaves,
        // W
        87 => Shape::Plain(Plain::Quit),
        _ => Shape::Unknown,
    }
}

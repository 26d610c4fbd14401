// The table of the lexical machine: a row for each class of bytes, with a cell for each state.
use crate::alphabet::cell::Cell;
use crate::alphabet::mark::MarkKind;
use crate::alphabet::state::LexState;

// A fault, alone and where a number ends before it.
const X: Cell = Cell::Fault;

const EX: Cell = Cell::EndThenFault;

// To a state with no event.
const GAP: Cell = Cell::Go(LexState::Gap);

const STR: Cell = Cell::Go(LexState::Str);

const ESC: Cell = Cell::Go(LexState::Esc);

const HEX4: Cell = Cell::Go(LexState::Hex4);

const HEX3: Cell = Cell::Go(LexState::Hex3);

const HEX2: Cell = Cell::Go(LexState::Hex2);

const HEX1: Cell = Cell::Go(LexState::Hex1);

const TAIL1: Cell = Cell::Go(LexState::Tail1);

const TAIL2: Cell = Cell::Go(LexState::Tail2);

const TAIL3: Cell = Cell::Go(LexState::Tail3);

const E0: Cell = Cell::Go(LexState::AfterE0);

const ED: Cell = Cell::Go(LexState::AfterEd);

const F0: Cell = Cell::Go(LexState::AfterF0);

const F4: Cell = Cell::Go(LexState::AfterF4);

const ZERO: Cell = Cell::Go(LexState::Zero);

const INT: Cell = Cell::Go(LexState::Int);

const DOT: Cell = Cell::Go(LexState::Dot);

const FRAC: Cell = Cell::Go(LexState::Frac);

const E: Cell = Cell::Go(LexState::E);

const SIGN: Cell = Cell::Go(LexState::ESign);

const EXP: Cell = Cell::Go(LexState::Exp);

const TR: Cell = Cell::Go(LexState::Tr);

const TRU: Cell = Cell::Go(LexState::Tru);

const FA: Cell = Cell::Go(LexState::Fa);

const FAL: Cell = Cell::Go(LexState::Fal);

const FALS: Cell = Cell::Go(LexState::Fals);

const NU: Cell = Cell::Go(LexState::Nu);

const NUL: Cell = Cell::Go(LexState::Nul);

// A string or a literal ends with the byte.
const CLOSE: Cell = Cell::Close;

// A token begins with the byte.
const BEGIN_STR: Cell = Cell::Begin(LexState::Str, MarkKind::String);

const BEGIN_MINUS: Cell = Cell::Begin(LexState::Minus, MarkKind::Number);

const BEGIN_ZERO: Cell = Cell::Begin(LexState::Zero, MarkKind::Number);

const BEGIN_INT: Cell = Cell::Begin(LexState::Int, MarkKind::Number);

const BEGIN_T: Cell = Cell::Begin(LexState::T, MarkKind::True);

const BEGIN_F: Cell = Cell::Begin(LexState::F, MarkKind::False);

const BEGIN_N: Cell = Cell::Begin(LexState::N, MarkKind::Null);

const OPEN_ARRAY: Cell = Cell::Begin(LexState::Gap, MarkKind::OpenArray);

const CLOSE_ARRAY: Cell = Cell::Begin(LexState::Gap, MarkKind::CloseArray);

const OPEN_OBJECT: Cell = Cell::Begin(LexState::Gap, MarkKind::OpenObject);

const CLOSE_OBJECT: Cell = Cell::Begin(LexState::Gap, MarkKind::CloseObject);

const COLON: Cell = Cell::Begin(LexState::Gap, MarkKind::Colon);

const COMMA: Cell = Cell::Begin(LexState::Gap, MarkKind::Comma);

// A number ends before the byte: white space, or one with which the next token begins.
const END: Cell = Cell::End(LexState::Gap);

const END_STR: Cell = Cell::EndThenBegin(LexState::Str, MarkKind::String);

const END_MINUS: Cell = Cell::EndThenBegin(LexState::Minus, MarkKind::Number);

const END_ZERO: Cell = Cell::EndThenBegin(LexState::Zero, MarkKind::Number);

const END_INT: Cell = Cell::EndThenBegin(LexState::Int, MarkKind::Number);

const END_T: Cell = Cell::EndThenBegin(LexState::T, MarkKind::True);

const END_F: Cell = Cell::EndThenBegin(LexState::F, MarkKind::False);

const END_N: Cell = Cell::EndThenBegin(LexState::N, MarkKind::Null);

const END_OPEN_ARRAY: Cell = Cell::EndThenBegin(LexState::Gap, MarkKind::OpenArray);

const END_CLOSE_ARRAY: Cell = Cell::EndThenBegin(LexState::Gap, MarkKind::CloseArray);

const END_OPEN_OBJECT: Cell = Cell::EndThenBegin(LexState::Gap, MarkKind::OpenObject);

const END_CLOSE_OBJECT: Cell = Cell::EndThenBegin(LexState::Gap, MarkKind::CloseObject);

const END_COLON: Cell = Cell::EndThenBegin(LexState::Gap, MarkKind::Colon);

const END_COMMA: Cell = Cell::EndThenBegin(LexState::Gap, MarkKind::Comma);

// The cells of a row are those of Gap, Str, Esc, Hex4, Hex3, Hex2, Hex1, Tail1, Tail2, Tail3, AfterE0, AfterEd, AfterF0,
// AfterF4, Minus, Zero, Int, Dot, Frac, E, ESign, Exp, T, Tr, Tru, F, Fa, Fal, Fals, N, Nu and Nul.
pub(crate) static CELLS: [[Cell; 32]; 42] = [
    // Ctl
    [
        X, X, X, X, X, X, X, X, X, X, X, X, X, X, X, EX, EX, X, EX, X, X, EX, X, X, X, X, X, X, X,
        X, X, X,
    ],
    // Blank
    [
        GAP, X, X, X, X, X, X, X, X, X, X, X, X, X, X, END, END, X, END, X, X, END, X, X, X, X, X,
        X, X, X, X, X,
    ],
    // Space
    [
        GAP, STR, X, X, X, X, X, X, X, X, X, X, X, X, X, END, END, X, END, X, X, END, X, X, X, X,
        X, X, X, X, X, X,
    ],
    // Quote
    [
        BEGIN_STR, CLOSE, STR, X, X, X, X, X, X, X, X, X, X, X, X, END_STR, END_STR, X, END_STR, X,
        X, END_STR, X, X, X, X, X, X, X, X, X, X,
    ],
    // Plus
    [
        X, STR, X, X, X, X, X, X, X, X, X, X, X, X, X, EX, EX, X, EX, SIGN, X, EX, X, X, X, X, X,
        X, X, X, X, X,
    ],
    // Comma
    [
        COMMA, STR, X, X, X, X, X, X, X, X, X, X, X, X, X, END_COMMA, END_COMMA, X, END_COMMA, X,
        X, END_COMMA, X, X, X, X, X, X, X, X, X, X,
    ],
    // Minus
    [
        BEGIN_MINUS,
        STR,
        X,
        X,
        X,
        X,
        X,
        X,
        X,
        X,
        X,
        X,
        X,
        X,
        X,
        END_MINUS,
        END_MINUS,
        X,
        END_MINUS,
        SIGN,
        X,
        END_MINUS,
        X,
        X,
        X,
        X,
        X,
        X,
        X,
        X,
        X,
        X,
    ],
    // Dot
    [
        X, STR, X, X, X, X, X, X, X, X, X, X, X, X, X, DOT, DOT, X, EX, X, X, EX, X, X, X, X, X, X,
        X, X, X, X,
    ],
    // Slash
    [
        X, STR, STR, X, X, X, X, X, X, X, X, X, X, X, X, EX, EX, X, EX, X, X, EX, X, X, X, X, X, X,
        X, X, X, X,
    ],
    // Zero
    [
        BEGIN_ZERO, STR, X, HEX3, HEX2, HEX1, STR, X, X, X, X, X, X, X, ZERO, END_ZERO, INT, FRAC,
        FRAC, EXP, EXP, EXP, X, X, X, X, X, X, X, X, X, X,
    ],
    // Digit
    [
        BEGIN_INT, STR, X, HEX3, HEX2, HEX1, STR, X, X, X, X, X, X, X, INT, END_INT, INT, FRAC,
        FRAC, EXP, EXP, EXP, X, X, X, X, X, X, X, X, X, X,
    ],
    // Colon
    [
        COLON, STR, X, X, X, X, X, X, X, X, X, X, X, X, X, END_COLON, END_COLON, X, END_COLON, X,
        X, END_COLON, X, X, X, X, X, X, X, X, X, X,
    ],
    // UpHex
    [
        X, STR, X, HEX3, HEX2, HEX1, STR, X, X, X, X, X, X, X, X, EX, EX, X, EX, X, X, EX, X, X, X,
        X, X, X, X, X, X, X,
    ],
    // UpE
    [
        X, STR, X, HEX3, HEX2, HEX1, STR, X, X, X, X, X, X, X, X, E, E, X, E, X, X, EX, X, X, X, X,
        X, X, X, X, X, X,
    ],
    // OpenArray
    [
        OPEN_ARRAY,
        STR,
        X,
        X,
        X,
        X,
        X,
        X,
        X,
        X,
        X,
        X,
        X,
        X,
        X,
        END_OPEN_ARRAY,
        END_OPEN_ARRAY,
        X,
        END_OPEN_ARRAY,
        X,
        X,
        END_OPEN_ARRAY,
        X,
        X,
        X,
        X,
        X,
        X,
        X,
        X,
        X,
        X,
    ],
    // Backslash
    [
        X, ESC, STR, X, X, X, X, X, X, X, X, X, X, X, X, EX, EX, X, EX, X, X, EX, X, X, X, X, X, X,
        X, X, X, X,
    ],
    // CloseArray
    [
        CLOSE_ARRAY,
        STR,
        X,
        X,
        X,
        X,
        X,
        X,
        X,
        X,
        X,
        X,
        X,
        X,
        X,
        END_CLOSE_ARRAY,
        END_CLOSE_ARRAY,
        X,
        END_CLOSE_ARRAY,
        X,
        X,
        END_CLOSE_ARRAY,
        X,
        X,
        X,
        X,
        X,
        X,
        X,
        X,
        X,
        X,
    ],
    // LowA
    [
        X, STR, X, HEX3, HEX2, HEX1, STR, X, X, X, X, X, X, X, X, EX, EX, X, EX, X, X, EX, X, X, X,
        FA, X, X, X, X, X, X,
    ],
    // LowB
    [
        X, STR, STR, HEX3, HEX2, HEX1, STR, X, X, X, X, X, X, X, X, EX, EX, X, EX, X, X, EX, X, X,
        X, X, X, X, X, X, X, X,
    ],
    // LowCD
    [
        X, STR, X, HEX3, HEX2, HEX1, STR, X, X, X, X, X, X, X, X, EX, EX, X, EX, X, X, EX, X, X, X,
        X, X, X, X, X, X, X,
    ],
    // LowE
    [
        X, STR, X, HEX3, HEX2, HEX1, STR, X, X, X, X, X, X, X, X, E, E, X, E, X, X, EX, X, X,
        CLOSE, X, X, X, CLOSE, X, X, X,
    ],
    // LowF
    [
        BEGIN_F, STR, STR, HEX3, HEX2, HEX1, STR, X, X, X, X, X, X, X, X, END_F, END_F, X, END_F,
        X, X, END_F, X, X, X, X, X, X, X, X, X, X,
    ],
    // LowL
    [
        X, STR, X, X, X, X, X, X, X, X, X, X, X, X, X, EX, EX, X, EX, X, X, EX, X, X, X, X, FAL, X,
        X, X, NUL, CLOSE,
    ],
    // LowN
    [
        BEGIN_N, STR, STR, X, X, X, X, X, X, X, X, X, X, X, X, END_N, END_N, X, END_N, X, X, END_N,
        X, X, X, X, X, X, X, X, X, X,
    ],
    // LowR
    [
        X, STR, STR, X, X, X, X, X, X, X, X, X, X, X, X, EX, EX, X, EX, X, X, EX, TR, X, X, X, X,
        X, X, X, X, X,
    ],
    // LowS
    [
        X, STR, X, X, X, X, X, X, X, X, X, X, X, X, X, EX, EX, X, EX, X, X, EX, X, X, X, X, X,
        FALS, X, X, X, X,
    ],
    // LowT
    [
        BEGIN_T, STR, STR, X, X, X, X, X, X, X, X, X, X, X, X, END_T, END_T, X, END_T, X, X, END_T,
        X, X, X, X, X, X, X, X, X, X,
    ],
    // LowU
    [
        X, STR, HEX4, X, X, X, X, X, X, X, X, X, X, X, X, EX, EX, X, EX, X, X, EX, X, TRU, X, X, X,
        X, X, NU, X, X,
    ],
    // OpenObject
    [
        OPEN_OBJECT,
        STR,
        X,
        X,
        X,
        X,
        X,
        X,
        X,
        X,
        X,
        X,
        X,
        X,
        X,
        END_OPEN_OBJECT,
        END_OPEN_OBJECT,
        X,
        END_OPEN_OBJECT,
        X,
        X,
        END_OPEN_OBJECT,
        X,
        X,
        X,
        X,
        X,
        X,
        X,
        X,
        X,
        X,
    ],
    // CloseObject
    [
        CLOSE_OBJECT,
        STR,
        X,
        X,
        X,
        X,
        X,
        X,
        X,
        X,
        X,
        X,
        X,
        X,
        X,
        END_CLOSE_OBJECT,
        END_CLOSE_OBJECT,
        X,
        END_CLOSE_OBJECT,
        X,
        X,
        END_CLOSE_OBJECT,
        X,
        X,
        X,
        X,
        X,
        X,
        X,
        X,
        X,
        X,
    ],
    // TailA
    [
        X, X, X, X, X, X, X, STR, TAIL1, TAIL2, X, TAIL1, X, TAIL2, X, EX, EX, X, EX, X, X, EX, X,
        X, X, X, X, X, X, X, X, X,
    ],
    // TailB
    [
        X, X, X, X, X, X, X, STR, TAIL1, TAIL2, X, TAIL1, TAIL2, X, X, EX, EX, X, EX, X, X, EX, X,
        X, X, X, X, X, X, X, X, X,
    ],
    // TailC
    [
        X, X, X, X, X, X, X, STR, TAIL1, TAIL2, TAIL1, X, TAIL2, X, X, EX, EX, X, EX, X, X, EX, X,
        X, X, X, X, X, X, X, X, X,
    ],
    // Lead2
    [
        X, TAIL1, X, X, X, X, X, X, X, X, X, X, X, X, X, EX, EX, X, EX, X, X, EX, X, X, X, X, X, X,
        X, X, X, X,
    ],
    // LeadE0
    [
        X, E0, X, X, X, X, X, X, X, X, X, X, X, X, X, EX, EX, X, EX, X, X, EX, X, X, X, X, X, X, X,
        X, X, X,
    ],
    // Lead3
    [
        X, TAIL2, X, X, X, X, X, X, X, X, X, X, X, X, X, EX, EX, X, EX, X, X, EX, X, X, X, X, X, X,
        X, X, X, X,
    ],
    // LeadEd
    [
        X, ED, X, X, X, X, X, X, X, X, X, X, X, X, X, EX, EX, X, EX, X, X, EX, X, X, X, X, X, X, X,
        X, X, X,
    ],
    // LeadF0
    [
        X, F0, X, X, X, X, X, X, X, X, X, X, X, X, X, EX, EX, X, EX, X, X, EX, X, X, X, X, X, X, X,
        X, X, X,
    ],
    // Lead4
    [
        X, TAIL3, X, X, X, X, X, X, X, X, X, X, X, X, X, EX, EX, X, EX, X, X, EX, X, X, X, X, X, X,
        X, X, X, X,
    ],
    // LeadF4
    [
        X, F4, X, X, X, X, X, X, X, X, X, X, X, X, X, EX, EX, X, EX, X, X, EX, X, X, X, X, X, X, X,
        X, X, X,
    ],
    // Bad
    [
        X, X, X, X, X, X, X, X, X, X, X, X, X, X, X, EX, EX, X, EX, X, X, EX, X, X, X, X, X, X, X,
        X, X, X,
    ],
    // Plain
    [
        X, STR, X, X, X, X, X, X, X, X, X, X, X, X, X, EX, EX, X, EX, X, X, EX, X, X, X, X, X, X,
        X, X, X, X,
    ],
];

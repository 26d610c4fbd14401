// The class of each byte, 16 bytes to a row.
use crate::alphabet::class::Class;
use crate::alphabet::class::Class::{
    Backslash, Bad, Blank, CloseArray, CloseObject, Colon, Comma, Ctl, Digit, Dot, Lead2, Lead3,
    Lead4, LeadE0, LeadEd, LeadF0, LeadF4, LowA, LowB, LowCD, LowE, LowF, LowL, LowN, LowR, LowS,
    LowT, LowU, Minus, OpenArray, OpenObject, Plain, Plus, Quote, Slash, Space, TailA, TailB,
    TailC, UpE, UpHex, Zero,
};

pub(crate) static CLASSES: [[Class; 16]; 16] = [
    // 0x00 to 0x0f
    [
        Ctl, Ctl, Ctl, Ctl, Ctl, Ctl, Ctl, Ctl, Ctl, Blank, Blank, Ctl, Ctl, Blank, Ctl, Ctl,
    ],
    // 0x10 to 0x1f
    [
        Ctl, Ctl, Ctl, Ctl, Ctl, Ctl, Ctl, Ctl, Ctl, Ctl, Ctl, Ctl, Ctl, Ctl, Ctl, Ctl,
    ],
    // 0x20 to 0x2f
    [
        Space, Plain, Quote, Plain, Plain, Plain, Plain, Plain, Plain, Plain, Plain, Plus, Comma,
        Minus, Dot, Slash,
    ],
    // 0x30 to 0x3f
    [
        Zero, Digit, Digit, Digit, Digit, Digit, Digit, Digit, Digit, Digit, Colon, Plain, Plain,
        Plain, Plain, Plain,
    ],
    // 0x40 to 0x4f
    [
        Plain, UpHex, UpHex, UpHex, UpHex, UpE, UpHex, Plain, Plain, Plain, Plain, Plain, Plain,
        Plain, Plain, Plain,
    ],
    // 0x50 to 0x5f
    [
        Plain, Plain, Plain, Plain, Plain, Plain, Plain, Plain, Plain, Plain, Plain, OpenArray,
        Backslash, CloseArray, Plain, Plain,
    ],
    // 0x60 to 0x6f
    [
        Plain, LowA, LowB, LowCD, LowCD, LowE, LowF, Plain, Plain, Plain, Plain, Plain, LowL,
        Plain, LowN, Plain,
    ],
    // 0x70 to 0x7f
    [
        Plain,
        Plain,
        LowR,
        LowS,
        LowT,
        LowU,
        Plain,
        Plain,
        Plain,
        Plain,
        Plain,
        OpenObject,
        Plain,
        CloseObject,
        Plain,
        Plain,
    ],
    // 0x80 to 0x8f
    [
        TailA, TailA, TailA, TailA, TailA, TailA, TailA, TailA, TailA, TailA, TailA, TailA, TailA,
        TailA, TailA, TailA,
    ],
    // 0x90 to 0x9f
    [
        TailB, TailB, TailB, TailB, TailB, TailB, TailB, TailB, TailB, TailB, TailB, TailB, TailB,
        TailB, TailB, TailB,
    ],
    // 0xa0 to 0xaf
    [
        TailC, TailC, TailC, TailC, TailC, TailC, TailC, TailC, TailC, TailC, TailC, TailC, TailC,
        TailC, TailC, TailC,
    ],
    // 0xb0 to 0xbf
    [
        TailC, TailC, TailC, TailC, TailC, TailC, TailC, TailC, TailC, TailC, TailC, TailC, TailC,
        TailC, TailC, TailC,
    ],
    // 0xc0 to 0xcf
    [
        Bad, Bad, Lead2, Lead2, Lead2, Lead2, Lead2, Lead2, Lead2, Lead2, Lead2, Lead2, Lead2,
        Lead2, Lead2, Lead2,
    ],
    // 0xd0 to 0xdf
    [
        Lead2, Lead2, Lead2, Lead2, Lead2, Lead2, Lead2, Lead2, Lead2, Lead2, Lead2, Lead2, Lead2,
        Lead2, Lead2, Lead2,
    ],
    // 0xe0 to 0xef
    [
        LeadE0, Lead3, Lead3, Lead3, Lead3, Lead3, Lead3, Lead3, Lead3, Lead3, Lead3, Lead3, Lead3,
        LeadEd, Lead3, Lead3,
    ],
    // 0xf0 to 0xff
    [
        LeadF0, Lead4, Lead4, Lead4, LeadF4, Bad, Bad, Bad, Bad, Bad, Bad, Bad, Bad, Bad, Bad, Bad,
    ],
];

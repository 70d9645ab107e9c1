// The words that a line has for reasons and quantities, and its digits.
ghost use Rattle.std.specs.Prelude.{◌≡◌, ◌<◌, ◌≤◌, [], ◌∷◌, length};
ghost use Rattle.plant_status.specs.Line.{IsPrintable};
ghost use Rattle.plant_status.specs.Word.{hex_digit, reason_word, what_word};

use trend_num::{Reason, What};

// Returns the digit of a number below 16.
pub(crate) fn hex_digit(digit: u8) -> &'static str
    requires { digit < 16 }
    ensures digit { result.now ≡ hex_digit digit ∷ [] }
    ensures printable { IsPrintable result.now }
{
    match digit {
        0 => "0",
        1 => "1",
        2 => "2",
        3 => "3",
        4 => "4",
        5 => "5",
        6 => "6",
        7 => "7",
        8 => "8",
        9 => "9",
        10 => "a",
        11 => "b",
        12 => "c",
        13 => "d",
        14 => "e",
        _ => "f",
    }
}

// Returns the word of a reason.
pub(crate) fn reason_word(reason: Reason) -> &'static str
    ensures word { result.now ≡ reason_word reason }
    ensures short { length result.now ≤ 6 }
    ensures printable { IsPrintable result.now }
{
    match reason {
        Reason::Fields => "fields",
        Reason::Verb => "verb",
        Reason::Name => "name",
        Reason::Number => "number",
        Reason::Range => "range",
    }
}

// Returns the word of a quantity that has a limit.
pub(crate) fn what_word(what: What) -> &'static str
    ensures word { result.now ≡ what_word what }
    ensures short { length result.now ≤ 13 }
    ensures printable { IsPrintable result.now }
{
    match what {
        What::FileBytes => "file_bytes",
        What::TextBytes => "text_bytes",
        What::Rows => "rows",
        What::Tags => "tags",
        What::Collectors => "collectors",
        What::Readers => "readers",
        What::Queries => "queries",
        What::Groups => "groups",
        What::Calcs => "calcs",
        What::Records => "records",
        What::StoreRecords => "store_records",
        What::Copies => "copies",
        What::Cells => "cells",
    }
}

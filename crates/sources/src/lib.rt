// What calls answer that are lent a gather buffer, as C has it: beside a value or a row, the bytes that its places count in.
#![tactic(auto)]

ghost use Rattle.std.specs.Prelude.{◌≡◌};
ghost use Rattle.sources.specs.Lent.{source_of, lent_row, lent_shown};

use answers::Refusal;
use spilled::ValueIn;
use spills::Source;
use turns::refusals::{no_refusal, refused_by};
use turns::shown::{empty_value, file_value};
use turns::types::{LentRow, LentValue, Row};

fn source_of(source: Source) -> u8
    ensures { result ≡ source_of source }
{
    match source {
        Source::Database => 0,
        Source::Buffer => 1,
    }
}

pub fn lent_row(row: Row, source: Source) -> LentRow
    ensures { result ≡ lent_row row source }
{
    LentRow {
        row,
        source: source_of(source),
    }
}

pub fn lent_shown(answer: Result<ValueIn, Refusal>) -> LentValue
    ensures { result ≡ lent_shown answer }
{
    match answer {
        Err(refusal) => LentValue {
            refused: refused_by(refusal),
            value: empty_value(),
            source: 0,
        },
        Ok(ValueIn { value, source }) => LentValue {
            refused: no_refusal(),
            value: file_value(value),
            source: source_of(source),
        },
    }
}

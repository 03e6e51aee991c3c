//! Allowances of a draft.

ghost use Rattle.std.specs.Prelude.{◌≡◌};
ghost use Rattle.handheld_core.specs.DraftRows.{allowance_in, form_of, size_of};

use dsd_record::DraftFault;
use dsd_values::{
    Allowance, Cents, Cost, Kept, Percent, ValueFault, Word, read_cents, read_cost,
    read_filled_word, read_percent,
};
use plain_lines::{PlainLine, value};

/// What the size of an allowance is.
#[derive(Clone, Copy, Debug, PartialEq, Eq)]
pub(crate) enum Form {
    /// A total in cents: `T`.
    Total,
    /// A rate for a unit: `R`.
    Rate,
    /// A percent of what it changes: `P`.
    Percent,
}

/// The size of an allowance, in one of its forms.
#[derive(Clone, Copy, Debug, PartialEq, Eq)]
pub(crate) struct Size {
    pub total: Option<Cents>,
    pub rate: Option<Cost>,
    pub percent: Option<Percent>,
}

/// What the four words behind the leading one say, in an item or at the level of the record.
pub(crate) fn read_allowance(in_line: bool, line: &PlainLine<'_>) -> Result<Allowance, DraftFault>
    ensures { result ≡ allowance_in in_line line.now }
{
    let code = value(line, 1, read_filled_word(line.word(1)))?;
    let method = value(line, 2, read_filled_word(line.word(2)))?;
    let form = value(line, 3, read_form(in_line, line.word(3)))?;
    let size = value(line, 4, read_size(form, line.word(4)))?;
    Ok(Allowance {
        code,
        method,
        number: Word::empty(),
        exception: Word::empty(),
        rate: size.rate,
        quantity: None,
        unit: Word::empty(),
        total: size.total,
        percent: size.percent,
        tail: Kept::empty(),
    })
}

/// The form that one letter names. At the level of the record a rate is none, since it has no quantity there.
fn read_form(in_line: bool, text: &[u8]) -> Result<Form, ValueFault>
    ensures { result ≡ form_of in_line text.now }
{
    match text {
        [] => Err(ValueFault::Empty),
        [b'T'] => Ok(Form::Total),
        [b'R'] if in_line => Ok(Form::Rate),
        [b'P'] => Ok(Form::Percent),
        _ => Err(ValueFault::OutOfRange),
    }
}

/// The size that a text of this form writes.
fn read_size(form: Form, text: &[u8]) -> Result<Size, ValueFault>
    ensures { result ≡ size_of form text.now }
{
    match form {
        Form::Total => Ok(Size {
            total: Some(read_cents(text)?),
            rate: None,
            percent: None,
        }),
        Form::Rate => Ok(Size {
            total: None,
            rate: Some(read_cost(text)?),
            percent: None,
        }),
        Form::Percent => Ok(Size {
            total: None,
            rate: None,
            percent: Some(read_percent(text)?),
        }),
    }
}

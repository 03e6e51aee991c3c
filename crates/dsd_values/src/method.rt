//! Methods of allowances.

ghost use Rattle.std.specs.Prelude.{◌≡◌};
ghost use Rattle.dsd_values.specs.Methods.{changes_price as has_effect, method_of};

/// What an allowance does to an amount.
#[derive(Clone, Copy, Debug, PartialEq, Eq)]
pub enum Method {
    Lowers,
    Raises,
    Other,
}

impl Method {
    /// The method that a text names: `02` lowers an amount, `06` raises it, and every other changes none.
    pub fn named(text: &[u8]) -> Method
        ensures { result ≡ method_of text.now }
    {
        if text == b"02".as_slice() {
            Method::Lowers
        } else if text == b"06".as_slice() {
            Method::Raises
        } else {
            Method::Other
        }
    }

    /// Whether an allowance of this method changes a price.
    pub fn changes_price(self) -> bool
        ensures { result ≡ has_effect self }
    {
        !matches!(self, Method::Other)
    }
}

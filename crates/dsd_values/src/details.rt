//! What few items say of a product.

ghost use Rattle.std.specs.Prelude.{◌≡◌, IfOk, IsTrue};
ghost use Rattle.dsd_values.specs.Details.{AreWordTexts, details_of, no_details};

use crate::fault::Memory;
use crate::word::Word;
use std::alloc::Global;
use std::marker::Model;
use std::rc::Rc;

/// The elements of a G83 or a G89 that most items leave empty.
#[derive(Debug, Drop)]
pub struct ItemDetails {
    pub qualifier: Word,
    pub id: Word,
    pub case_code: Word,
    pub pack: Word,
    pub label: Word,
}

/// The texts that details are made of.
#[derive(Clone, Copy)]
pub struct DetailTexts<'a> {
    pub qualifier: &'a [u8],
    pub id: &'a [u8],
    pub case_code: &'a [u8],
    pub pack: &'a [u8],
    pub label: &'a [u8],
}

impl DetailTexts<'_> {
    fn are_empty(&self) -> bool
        ensures { IsTrue result → details_of self.now ≡ no_details }
    {
        self.qualifier.is_empty()
            && self.id.is_empty()
            && self.case_code.is_empty()
            && self.pack.is_empty()
            && self.label.is_empty()
    }

    /// Keeps the texts as words.
    // Few items come here: the room for the words is made here alone.
    #[inline(never)]
    fn keep(&self, alloc: Global) -> Result<Rc<ItemDetails>, Memory>
        requires { AreWordTexts self.now }
        ensures { IfOk result (λ kept. kept.value ≡ details_of self.now) }
    {
        let details = ItemDetails {
            qualifier: Word::new(self.qualifier),
            id: Word::new(self.id),
            case_code: Word::new(self.case_code),
            pack: Word::new(self.pack),
            label: Word::new(self.label),
        };
        Ok(Rc::new(alloc, details)?)
    }
}

/// The details of an item. Copies share them.
#[derive(Debug, Drop)]
pub struct Details {
    held: Option<Rc<ItemDetails>>,
}

impl Model for Details {
    ghost use Rattle.std.specs.Option.{option_map_or};
    ghost use Rattle.dsd_values.specs.Details.{no_details};
    ghost use Rattle.dsd_values.specs.declared.details.ItemDetails.{ItemDetails as Item};

    ghost Value = { Item };

    ghost view = { λ details. option_map_or (λ held. held.value) details.held no_details };
}

impl Details {
    /// Details that are all empty, which take no memory.
    pub fn none() -> Details
        ensures { result ≡ no_details }
    {
        Details { held: None }
    }

    /// The details that these texts say. Where all are empty they take no memory.
    #[inline(always)]
    pub fn new(alloc: Global, texts: &DetailTexts<'_>) -> Result<Details, Memory>
        requires { AreWordTexts texts.now }
        ensures { IfOk result (λ details. details ≡ details_of texts.now) }
    {
        if texts.are_empty() {
            return Ok(Details::none());
        }
        Ok(Details {
            held: Some(texts.keep(alloc)?),
        })
    }

    pub fn qualifier(&self) -> &[u8]
        ensures { result.now ≡ self.now.qualifier }
    {
        match &self.held {
            Some(details) => details.qualifier.as_slice(),
            None => b"",
        }
    }

    pub fn id(&self) -> &[u8]
        ensures { result.now ≡ self.now.id }
    {
        match &self.held {
            Some(details) => details.id.as_slice(),
            None => b"",
        }
    }

    pub fn case_code(&self) -> &[u8]
        ensures { result.now ≡ self.now.case_code }
    {
        match &self.held {
            Some(details) => details.case_code.as_slice(),
            None => b"",
        }
    }

    pub fn pack(&self) -> &[u8]
        ensures { result.now ≡ self.now.pack }
    {
        match &self.held {
            Some(details) => details.pack.as_slice(),
            None => b"",
        }
    }

    pub fn label(&self) -> &[u8]
        ensures { result.now ≡ self.now.label }
    {
        match &self.held {
            Some(details) => details.label.as_slice(),
            None => b"",
        }
    }

    /// The same details, shared.
    pub fn try_copy(&self) -> Result<Details, Memory>
        ensures { IfOk result (λ copy. copy ≡ self.now) }
    {
        let Some(details) = &self.held else {
            return Ok(Details::none());
        };
        Ok(Details {
            held: Some(details.clone()?),
        })
    }
}

//! The jobs of the program `dex`: from words and an input to a printed text and a status.
#![tactic(auto)]

mod begun_set;
mod check_line;
mod check_set;
mod check_text;
mod checking;
mod end_job;
mod end_words;
mod entry_summary;
mod fault;
mod format_words;
mod formatting;
mod job;
mod journal_summary;
pub mod laws;
mod load_words;
mod loading;
mod name;
mod reasons;
mod refusal;
mod replaying;
mod report;
mod serving;
mod show_words;
mod showing;
mod status;
mod summary;
mod text_summary;
mod verdict;
mod words;

pub use end_job::EndReport;
pub use end_words::EndNames;
pub use entry_summary::{EntryForm, EntrySummary};
pub use fault::WordsFault;
pub use format_words::NewJournal;
pub use job::{INPUT_BYTES, dex};
pub use journal_summary::JournalSummary;
pub use name::Name;
pub use refusal::{Reason, Refusal};
pub use status::{
    DONE, INPUT_REFUSED, JOURNAL_FULL, JOURNAL_REFUSED, NO_MEMORY, OPEN, PARTNER_REFUSED,
    SESSION_LOST, SINK_FAILED, SOURCE_FAILED, STATION_FAILED, TOO_MUCH_HEARD, WORDS_REFUSED,
};
pub use summary::{SetForm, SetSummary};
pub use text_summary::{TextEnding, TextSummary};
pub use verdict::Verdict;
pub use words::{CheckKind, Job, read_words};

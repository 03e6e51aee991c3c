//! Laws of the words and of the statuses.

ghost use Rattle.std.specs.Prelude.{◌≡◌, ◌≢◌, ℕ, List, Some};
ghost use Rattle.dex_cli.specs.Verdicts.{Read, MayCome, status_of};
ghost use Rattle.dex_cli.specs.Formatting.{Served};
ghost use Rattle.dex_cli.specs.Replaying.{Worlds};
ghost use Rattle.dex_cli.specs.Words.{AsksEnd, Spells};
ghost use Rattle.dex_cli.specs.declared.verdict.Verdict.{Verdict};
ghost use Rattle.dex_cli.specs.declared.verdict.Verdict.TheVariants.{Full, SourceFault, StationFault};
ghost use Rattle.dex_cli.specs.declared.words.Job.{Job};

/// Words spell at most one job.
pub fn one_job()
    ensures { (words : List (List ℕ)) (one other : Job) → Spells one words → Spells other words → one ≡ other }
{}

/// For a source and a station that tell their bytes, the words and these bytes leave one status, faults of the source and
/// of the station aside. That of an end goes by what it heard, too (`one_status_of_ends`), and that of a `replay` is told by the world that it left.
pub fn one_status()
    ensures { (words : List (List ℕ)) (left after after' : List ℕ) (faults now now' : ℕ) (one other : Served) (here there : Worlds) (a b : Verdict)
        → (AsksEnd words → ⊥) → a ≢ SourceFault → a ≢ StationFault → b ≢ SourceFault → b ≢ StationFault → one.before.journal ≡ other.before.journal → here.after ≡ there.after
        → MayCome (Unit {0}) words (record { left = Some left; after = Some after; faults = faults; faults_after = now }) one here a
        → MayCome (Unit {0}) words (record { left = Some left; after = Some after'; faults = faults; faults_after = now' }) other there b
        → status_of a ≡ status_of b }
{}

/// For a source and a station that tell their bytes, the words of an end, what was read, the journal and what was heard leave one status, faults of the source and of
/// the station and a full journal aside.
pub fn one_status_of_ends()
    ensures { (words : List (List ℕ)) (left after after' : List ℕ) (faults now now' : ℕ) (one other : Served) (here there : Worlds) (a b : Verdict)
        → AsksEnd words → a ≢ SourceFault → a ≢ StationFault → ((n : ℕ) → a ≢ Full n) → b ≢ SourceFault → b ≢ StationFault → ((n : ℕ) → b ≢ Full n)
        → one.before.journal ≡ other.before.journal → one.before.heard ≡ other.before.heard → one.after.heard ≡ other.after.heard
        → MayCome (Unit {0}) words (record { left = Some left; after = Some after; faults = faults; faults_after = now }) one here a
        → MayCome (Unit {0}) words (record { left = Some left; after = Some after'; faults = faults; faults_after = now' }) other there b
        → status_of a ≡ status_of b }
{}

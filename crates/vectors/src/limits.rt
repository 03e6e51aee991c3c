//! Each limit and each status by its number. A definition that cites a constant moves with it; these laws do not.

ghost use Rattle.std.specs.Prelude.{◌≡◌};
ghost use Rattle.dsd_values.specs.declared.cents.TheConstants.Cents.{MAX as MOST_CENTS};
ghost use Rattle.dsd_values.specs.declared.comm_id.TheConstants.{COMM_ID_BYTES};
ghost use Rattle.dsd_values.specs.declared.cost.TheConstants.{COST_DECIMALS};
ghost use Rattle.dsd_values.specs.declared.cost.TheConstants.Cost.{MAX as MOST_COST};
ghost use Rattle.dsd_values.specs.declared.delivery_number.TheConstants.{DELIVERY_NUMBER_BYTES};
ghost use Rattle.dsd_values.specs.declared.dsd_number.TheConstants.DsdNumber.{MIN as LEAST_DSD, MAX as MOST_DSD};
ghost use Rattle.dsd_values.specs.declared.level.TheConstants.Level.{MAX as MOST_LEVEL};
ghost use Rattle.dsd_values.specs.declared.limits.TheConstants.{HIGHEST_LEVEL, KEPT_BYTES, MARK_BYTES, MOST_ALLOWANCES, MOST_LINES, SET_BYTES, WORD_BYTES};
ghost use Rattle.dsd_values.specs.declared.percent.TheConstants.{PERCENT_DECIMALS};
ghost use Rattle.dsd_values.specs.declared.percent.TheConstants.Percent.{MAX as MOST_PERCENT};
ghost use Rattle.dsd_values.specs.declared.quantity.TheConstants.{MOST_TOTAL_QUANTITY};
ghost use Rattle.dsd_values.specs.declared.quantity.TheConstants.Quantity.{MAX as MOST_QUANTITY};
ghost use Rattle.segments.specs.declared.segment.TheConstants.{SEGMENT_BYTES, SEGMENT_ELEMENTS};
ghost use Rattle.segments.specs.declared.segment_write_fault.TheConstants.{SEGMENT_WRITTEN};
ghost use Rattle.dxs_envelope.specs.declared.outgoing.TheConstants.{TRANSMISSION_BYTES};
ghost use Rattle.dex_line.specs.declared.cutter.TheConstants.{BLOCK_WRITTEN};
ghost use Rattle.dex_line.specs.declared.frame.TheConstants.{BLOCK_READ, HEADER_BYTES};
ghost use Rattle.dsd_journal.specs.declared.limits.TheConstants.{JOURNAL_BYTES};
ghost use Rattle.dex_cli.specs.declared.job.TheConstants.{INPUT_BYTES};
ghost use Rattle.dex_cli.specs.declared.status.TheConstants.{DONE, OPEN, WORDS_REFUSED, INPUT_REFUSED, SOURCE_FAILED, SINK_FAILED, STATION_FAILED, JOURNAL_REFUSED, SESSION_LOST, TOO_MUCH_HEARD, PARTNER_REFUSED, NO_MEMORY, JOURNAL_FULL};

/// Of numbers: cents, costs in ten-thousandths and percents in hundredths.
pub fn numbers()
    ensures cents { MOST_CENTS ≡ 99_999_999_999 }
    ensures cost { MOST_COST ≡ 999_999_999 }
    ensures cost_decimals { COST_DECIMALS ≡ 4 }
    ensures percent { MOST_PERCENT ≡ 99_999 }
    ensures percent_decimals { PERCENT_DECIMALS ≡ 2 }
    ensures quantity { MOST_QUANTITY ≡ 99_999 }
    ensures total_quantity { MOST_TOTAL_QUANTITY ≡ 999_999_999 }
    ensures least_dsd { LEAST_DSD ≡ 1 }
    ensures most_dsd { MOST_DSD ≡ 9_999 }
    ensures level { MOST_LEVEL ≡ 9 }
    ensures highest_level { HIGHEST_LEVEL ≡ 9 }
{}

/// Of lists and of texts, in bytes.
pub fn sizes()
    ensures lines { MOST_LINES ≡ 999 }
    ensures allowances { MOST_ALLOWANCES ≡ 20 }
    ensures mark { MARK_BYTES ≡ 12 }
    ensures comm_id { COMM_ID_BYTES ≡ 10 }
    ensures delivery_number { DELIVERY_NUMBER_BYTES ≡ 22 }
    ensures word { WORD_BYTES ≡ 35 }
    ensures kept { KEPT_BYTES ≡ 512 }
    ensures elements { SEGMENT_ELEMENTS ≡ 30 }
    ensures segment { SEGMENT_BYTES ≡ 512 }
    ensures segment_written { SEGMENT_WRITTEN ≡ 245 }
    ensures set { SET_BYTES ≡ 262_144 }
    ensures transmission { TRANSMISSION_BYTES ≡ 270_000 }
    ensures block { BLOCK_READ ≡ 512 }
    ensures block_written { BLOCK_WRITTEN ≡ 245 }
    ensures header { HEADER_BYTES ≡ 32 }
    ensures journal { JOURNAL_BYTES ≡ 67_108_864 }
    ensures input { INPUT_BYTES ≡ 4_194_304 }
{}

/// How the program ends.
pub fn statuses()
    ensures done { DONE ≡ 0 }
    ensures some_open { OPEN ≡ 1 }
    ensures words { WORDS_REFUSED ≡ 2 }
    ensures input { INPUT_REFUSED ≡ 3 }
    ensures source { SOURCE_FAILED ≡ 4 }
    ensures sink { SINK_FAILED ≡ 5 }
    ensures station { STATION_FAILED ≡ 6 }
    ensures journal { JOURNAL_REFUSED ≡ 7 }
    ensures lost { SESSION_LOST ≡ 8 }
    ensures heard { TOO_MUCH_HEARD ≡ 9 }
    ensures partner { PARTNER_REFUSED ≡ 10 }
    ensures memory { NO_MEMORY ≡ 11 }
    ensures full { JOURNAL_FULL ≡ 12 }
{}

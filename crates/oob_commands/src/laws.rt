ghost use Rattle.std.specs.Prelude.{◌≡◌, ◌≤◌, ℕ, List, length, Ok};
ghost use Rattle.csv_rows.specs.Rows.{rows_of};
ghost use Rattle.lk_base.specs.Limits.{rows_limit};
ghost use Rattle.link_plan.specs.Timed.{flow_of};
ghost use Rattle.oob_flow.specs.Reading.{rows_of_samples};
ghost use Rattle.oob_commands.specs.FlowFile.{flow_file};
ghost use Rattle.oob_commands.specs.Examples.{WorkedFiles, HandingOverIsMet};
ghost use Rattle.oob_commands.specs.ReadBack.{WriteIsWork, ReadIsWork, SamplesAreReadBack, FlowFilesAreAccepted, OobReadUndoesOobWrite, OobReadRefusesMore};

/// What is read for `oobwrite`, and for `oobread`, comes to one outcome; where the files hold bytes it comes to one; and no
/// stream is held.
pub fn status_is_work()
    ensures writes { WriteIsWork }
    ensures reads { ReadIsWork }
{}

/// The samples that `oobwrite` makes, read again, show the states of each frame; the flow file that `oobread` makes is
/// accepted.
pub fn status_is_read_back()
    ensures written { SamplesAreReadBack }
    ensures accepted { FlowFilesAreAccepted }
{}

/// `oobread` of the samples that `oobwrite` made comes to a flow file that is accepted, and by its rows each channel that has
/// a calendar entry is on, after the rows of a frame, exactly where it was on in the frame. Samples beyond the limit of a
/// sample file are refused as too large.
pub fn oobread_undoes_oobwrite()
    ensures undoes { OobReadUndoesOobWrite }
    ensures refuses { OobReadRefusesMore }
{}

/// The flow file of any samples that are read is accepted as the rows that they give, and it is within the limit of a flow
/// file.
pub fn flow_files_are_accepted()
    ensures accepted { (entries : ℕ) (samples : List ℕ) → 1 ≤ entries → length samples ≤ 4194304 → flow_of (rows_of (flow_file (rows_of_samples entries samples))) ≡ Ok (rows_of_samples entries samples) }
    ensures short { (entries : ℕ) (samples : List ℕ) → 1 ≤ entries → length samples ≤ 4194304 → length (flow_file (rows_of_samples entries samples)) ≤ rows_limit }
{}

/// The premises of `oobread_undoes_oobwrite` can be met.
pub fn handing_over_is_met()
    ensures { HandingOverIsMet }
{}

/// The flow file of a frame that shows one channel on and one off, of one whose checksum is wrong, and of no samples.
pub fn worked_files()
    ensures { WorkedFiles }
{}

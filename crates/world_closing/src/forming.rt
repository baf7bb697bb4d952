// The text of a report determines it, at each moment of any run.
ghost use Rattle.world_closing.specs.forming.Epochs.{AllLinesAreShort};
ghost use Rattle.world_closing.specs.forming.Forming.{AllRunsReportInForm};

/// Says that at each moment of a run of any script in form the text of the report of its lines so far determines that
/// report, where targets may stop, open again and be given up, snapshots be made and read, and containers aggregated:
/// where names and keys of the script are keys, those of snapshots among them, and keys of the cells that the opening
/// stands for and of the maps that it keeps; where a command has at most 256 attempts, and numbers and incarnations of
/// lines are as small as their types hold. Attempts are numbered within their commands; each was answered by reads in
/// form on a map with keys; a cause shows an attempt to which an epoch was issued and a path that the script names, or
/// a floor of which a line tells; lines of freezes, snapshots and aggregations come from attempts that make them; and
/// leases cover the epochs of which lines tell.
pub fn laws_of_texts()
    ensures runs { AllRunsReportInForm }
    ensures epochs { AllLinesAreShort }
{}

ghost use Rattle.rip_log.specs.Histories.{LogTellsHistory, RefusalIsOne};

/// Two histories whose entries are in range and whose logs are equal are equal.
pub fn logs_tell_histories()
    ensures { LogTellsHistory }
{}

/// A text is refused at one line at most, and the log of a history at none.
pub fn refusals_are_one()
    ensures { RefusalIsOne }
{}

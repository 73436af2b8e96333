//! The laws of the folder.
ghost use Rattle.compose_stored.specs.Laws.{HoldsWhateverIsLost, StoredStaysWhole, RewrittenStaysWhole, TakenStaysWhole};

/// What a power cut may leave at each moment of some calls is what is there if only the first of
/// them have reached the disk, however many these are.
pub fn law_power_cuts()
    ensures { HoldsWhateverIsLost }
{}

/// At each moment the table in use is the old one or the new one, whole: while a table is stored
/// (`stored`), while it is stored with other settings (`rewritten`), and while the next table is
/// taken (`taken`), whether that succeeds or not.
pub fn law_whole_tables()
    ensures stored { StoredStaysWhole }
    ensures rewritten { RewrittenStaysWhole }
    ensures taken { TakenStaysWhole }
{}

//! Laws of stores.

ghost use Rattle.store_side.specs.Fitting.{SendsAll};
ghost use Rattle.store_side.specs.Laws.{AdmittingIsSound, PullingIsSound};

/// The law that what a tree sends can be sent: its lengths can be written, and each body is that of a frame, but that of a child list that
/// is too long.
pub fn sends_all()
    ensures { SendsAll }
{}

/// The law that a sound store stays sound by the calls whose clauses do not say so: where it admits a connection, and where bytes of one
/// are pulled.
pub fn stays_sound()
    ensures admitting { AdmittingIsSound }
    ensures pulling { PullingIsSound }
{}

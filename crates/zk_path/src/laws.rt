//! Laws of paths.

ghost use Rattle.zk_path.specs.Laws.{HasOneText, HasOneStemText, IsNumbered};

/// A legal path's text determines its components.
pub fn one_path()
    ensures { HasOneText }
{}

/// A legal stem's text determines its components.
pub fn one_stem()
    ensures { HasOneStemText }
{}

/// A legal stem with a number is a legal path, whose stem it is.
pub fn numbered_stem()
    ensures { IsNumbered }
{}

//! Laws of the definitions. Nothing calls these functions.
ghost use Rattle.std.specs.Prelude.{◌≡◌};
ghost use Rattle.dns_io.specs.declared.transfer.TheConstants.{INPUT_LIMIT};

/// The number of octets that are read at most.
pub fn input_limit()
    ensures { INPUT_LIMIT ≡ 16777216 }
{}

//! What is true of scripts. Nothing calls these functions.
ghost use Rattle.std.specs.Prelude.{◌≢◌, ℕ, List, Err};
ghost use Rattle.dns_script.specs.Scripts.{script_of};
ghost use Rattle.dns_script.specs.declared.error.ScriptError.TheVariants.{OutOfMemory};
ghost use Rattle.check_script.specs.Script.{check_kind};

/// Octets are a script, or have a first faulty line.
#[tactic(auto, using(crate::proofs::ScriptsRead::never_out_of_memory))]
pub fn scripts_are_read_or_faulty()
    ensures { (octets : List ℕ) → script_of check_kind octets ≢ Err OutOfMemory }
{}

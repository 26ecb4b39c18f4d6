//! Values put one behind the other.
ghost use Rattle.std.specs.Prelude.{◌≡◌};
ghost use Rattle.dns_wire.specs.Joining.{each_octets};
ghost use Rattle.dns_wire.specs.Sinks.{Puts};

use crate::error::EmitError;
use crate::putting::{Form, Putting};
use crate::sink::OctetSink;

impl<T: Putting> Putting for &T {
    ghost written = { λ is_canonical encoding value. T.written is_canonical encoding value.now };

    fn put<S: OctetSink>(&self, form: Form, sink: &mut S) -> Result<(), EmitError> {
        (**self).put(form, sink)
    }
}

impl<T: Putting> Putting for Option<T> {
    ghost use Rattle.dns_wire.specs.Joining.{option_octets};

    ghost written = { λ is_canonical encoding. option_octets (T.written is_canonical encoding) };

    #[tactic(auto, using(crate::proofs::PutLaws::takes_none))]
    fn put<S: OctetSink>(&self, form: Form, sink: &mut S) -> Result<(), EmitError> {
        match self {
            Some(value) => value.put(form, sink),
            None => Ok(()),
        }
    }
}

impl<A: Putting, B: Putting> Putting for (A, B) {
    ghost use Rattle.dns_wire.specs.Joining.{joined};

    ghost written = { λ is_canonical encoding both.
        joined (A.written is_canonical encoding both.0) (B.written is_canonical encoding both.1) };

    #[tactic(auto, using(crate::proofs::PutLaws::puts_both, crate::proofs::PutLaws::puts_fail))]
    fn put<S: OctetSink>(&self, form: Form, sink: &mut S) -> Result<(), EmitError> {
        self.0.put(form, sink)?;
        self.1.put(form, sink)
    }
}

/// Puts values one behind the other, up to the first that can't be written.
fn put_each<T: Putting, S: OctetSink>(
    values: &[T],
    form: Form,
    sink: &mut S,
) -> Result<(), EmitError>
    ensures { Puts S.has_taken result sink.old sink.new
        (each_octets (T.written form.canonical_form form.name_encoding) values.now) }
{
    for value in values {
        value.put(form, sink)?;
    }
    Ok(())
}

impl<T: Putting> Putting for &[T] {
    ghost use Rattle.dns_wire.specs.Joining.{each_octets};

    ghost written = { λ is_canonical encoding values. each_octets (T.written is_canonical encoding) values.now };

    fn put<S: OctetSink>(&self, form: Form, sink: &mut S) -> Result<(), EmitError> {
        put_each(self, form, sink)
    }
}

impl<T: Putting> Putting for Vec<T> {
    ghost use Rattle.dns_wire.specs.Joining.{each_octets};

    ghost written = { λ is_canonical encoding values. each_octets (T.written is_canonical encoding) values.items };

    fn put<S: OctetSink>(&self, form: Form, sink: &mut S) -> Result<(), EmitError> {
        put_each(self.as_slice(), form, sink)
    }
}

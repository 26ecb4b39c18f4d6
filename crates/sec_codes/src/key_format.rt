//! How private keys are stored.

/// The format of a stored key.
#[derive(Clone, Copy, Debug, PartialEq, Eq)]
pub enum KeyFormat {
    /// DER.
    Der,
    /// PEM, which is DER in base64 between two lines of dashes.
    Pem,
    /// PKCS#8, in DER.
    Pkcs8,
}

//! What the flags of a KEY record say (RFC 2535 3.1.2, RFC 2137 3.1.1).
ghost use Rattle.std.specs.Prelude.{◌≡◌, ◌/◌, ◌%◌, ◌*◌, ◌^◌};
ghost use Rattle.sec_keydata.specs.KeyUses.{trust_code, usage_code, scope_bits};

/// What a key may be used for, by the two highest bits of the flags.
#[derive(Clone, Copy, Debug, Default, PartialEq, Eq, Hash)]
pub enum KeyTrust {
    /// Bits `8000`: the key must not be used for authentication.
    NotAuth,
    /// Bits `4000`: the key must not be used for confidentiality.
    NotPrivate,
    /// No bit: the key may be used for both.
    #[default]
    AuthOrPrivate,
    /// Bits `c000`: there is no key.
    DoNotTrust,
}

impl From<u16> for KeyTrust {
    ghost from_gives = { λ flags trust. trust_code trust ≡ flags / 2 ^ 14 % 4 };

    fn from(flags: u16) -> KeyTrust {
        match flags / 0x4000 {
            0 => KeyTrust::AuthOrPrivate,
            1 => KeyTrust::NotPrivate,
            2 => KeyTrust::NotAuth,
            _ => KeyTrust::DoNotTrust,
        }
    }
}

impl From<KeyTrust> for u16 {
    ghost from_gives = { λ trust flags. flags ≡ trust_code trust * 2 ^ 14 };

    fn from(trust: KeyTrust) -> u16 {
        match trust {
            KeyTrust::AuthOrPrivate => 0,
            KeyTrust::NotPrivate => 0x4000,
            KeyTrust::NotAuth => 0x8000,
            KeyTrust::DoNotTrust => 0xc000,
        }
    }
}

/// Whose key it is, by the bits `0300` of the flags.
#[derive(Clone, Copy, Debug, Default, PartialEq, Eq, Hash)]
pub enum KeyUsage {
    /// No bit: a user's or account's key at a host.
    Host,
    /// Bits `0100`: a zone's key.
    Zone,
    /// Bits `0200`: the key of another entity.
    #[default]
    Entity,
    /// Bits `0300`, which are reserved.
    Reserved,
}

impl From<u16> for KeyUsage {
    ghost from_gives = { λ flags usage. usage_code usage ≡ flags / 2 ^ 8 % 4 };

    fn from(flags: u16) -> KeyUsage {
        match flags / 0x100 % 4 {
            0 => KeyUsage::Host,
            1 => KeyUsage::Zone,
            2 => KeyUsage::Entity,
            _ => KeyUsage::Reserved,
        }
    }
}

impl From<KeyUsage> for u16 {
    ghost from_gives = { λ usage flags. flags ≡ usage_code usage * 2 ^ 8 };

    fn from(usage: KeyUsage) -> u16 {
        match usage {
            KeyUsage::Host => 0,
            KeyUsage::Zone => 0x0100,
            KeyUsage::Entity => 0x0200,
            KeyUsage::Reserved => 0x0300,
        }
    }
}

/// Which updates a key may sign, by the four lowest bits of the flags.
#[derive(Clone, Copy, Debug, Default, PartialEq, Eq, Hash)]
pub struct UpdateScope {
    /// Bit 8: updates of a zone's delegations.
    pub zone: bool,
    /// Bit 4: updates of names that others made.
    pub strong: bool,
    /// Bit 2: updates under one name.
    pub unique: bool,
    /// Bit 1: every other update.
    pub general: bool,
}

impl From<u16> for UpdateScope {
    ghost from_gives = { λ flags scope. scope_bits scope ≡ flags % 16 };

    fn from(flags: u16) -> UpdateScope {
        UpdateScope {
            zone: flags / 8 % 2 == 1,
            strong: flags / 4 % 2 == 1,
            unique: flags / 2 % 2 == 1,
            general: flags % 2 == 1,
        }
    }
}

impl From<UpdateScope> for u16 {
    ghost from_gives = { λ scope flags. flags ≡ scope_bits scope };

    fn from(scope: UpdateScope) -> u16 {
        let zone = if scope.zone { 8 } else { 0 };
        let strong = if scope.strong { 4 } else { 0 };
        let unique = if scope.unique { 2 } else { 0 };
        let general = if scope.general { 1 } else { 0 };
        zone + strong + unique + general
    }
}

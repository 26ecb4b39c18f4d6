//! Laws of the definitions. Nothing calls these functions.
ghost use Rattle.std.specs.Prelude.{◌≡◌, ◌↔◌, ℕ, ◌≤◌, List, length};
ghost use Rattle.std.specs.Int.{Width};
ghost use Rattle.dns_wire.specs.Reading.{octets_at, number_at, time_at, counted_at, OctetsAt, NumberAt, TimeAt};
ghost use Rattle.dns_wire.specs.Reading.{CountedAt};

/// Octets, numbers, times and counted octets are read exactly where they stand.
pub fn fields_are_read_where_they_stand()
    ensures octets { (n : ℕ) (m : List ℕ) (p e : ℕ) (x : List ℕ) (q : ℕ) → e ≤ length m
        → (octets_at n m p e ≡ Ok (x, q)) ↔ OctetsAt n m p e x q }
    ensures number { (w : Width) (m : List ℕ) (p e n q : ℕ) → e ≤ length m
        → (number_at w m p e ≡ Ok (n, q)) ↔ NumberAt w m p e n q }
    ensures time { (m : List ℕ) (p e n q : ℕ) → e ≤ length m → (time_at m p e ≡ Ok (n, q)) ↔ TimeAt m p e n q }
    ensures counted { (w : Width) (m : List ℕ) (p e : ℕ) (x : List ℕ) (q : ℕ) → e ≤ length m
        → (counted_at w m p e ≡ Ok (x, q)) ↔ CountedAt w m p e x q }
{}

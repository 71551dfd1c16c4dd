// Laws of streams.
ghost use Rattle.std.specs.Prelude.{◌≡◌, ◌⊎◌, Bool, List, ℕ};
ghost use Rattle.rest_stream.specs.Stream.{HasRefusedHead, IsOutside, IsRequest, IsUnclear, StopsBy};
ghost use Rattle.rest_stream.specs.declared.raw.RawRequest.{RawRequest};
ghost use Rattle.rest_stream.specs.declared.raw.Stop.{Stop};

/// Law: a stream begins with at most one request, and one that does has no reason of its own to
/// end.
pub fn requests_are_unique()
    ensures one { (l : Bool) (s : List ℕ) (a b : RawRequest) (q r : List ℕ) → IsRequest l s a q
        → IsRequest l s b r → (a ≡ b) × (q ≡ r) }
    ensures goes_on { (l : Bool) (s : List ℕ) (a : RawRequest) (q : List ℕ) (why : Stop)
        → IsRequest l s a q → StopsBy s why → IsOutside why }
{}

/// Law: a stream whose first head is refused has no other reason of its own to end; and no stream
/// has two, except one that breaks off inside a target that no bytes can end.
pub fn reasons_are_unique()
    ensures refused { (s : List ℕ) (why other : Stop) → HasRefusedHead s why → StopsBy s other
        → (why ≡ other) ⊎ IsOutside other }
    ensures one { (s : List ℕ) (a b : Stop) → StopsBy s a → StopsBy s b → ¬ (IsOutside a)
        → ¬ (IsOutside b) → (a ≡ b) ⊎ IsUnclear s a b }
{}

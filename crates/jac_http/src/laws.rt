ghost use Rattle.std.specs.Prelude.{◌≡◌, ◌≢◌, ℕ, List, [], ◌++◌, length};
ghost use Rattle.jac_http.specs.declared.taken.Request.{Request};
ghost use Rattle.jac_http.specs.declared.taken.Taken.{Taken};
ghost use Rattle.jac_http.specs.declared.taken.Taken.TheVariants.{More, Whole};
ghost use Rattle.jac_http.specs.Requests.{IsTaken};
ghost use Rattle.jac_http.specs.Reading.{IsReading, AreRead};

/// A law: bytes have one answer. Unless it is `More`, bytes that follow don't change it. A request
/// takes no more bytes than there are.
pub fn requests_are_read()
    ensures { IsReading IsTaken }
{}

/// A law: all bytes have an answer. That they have none leads to a contradiction.
pub fn all_bytes_are_read()
    ensures { (bytes : List ℕ) → ((answer : Taken) → IsTaken bytes answer → ⊥) → ⊥ }
{}

/// A law: a proper beginning of a whole request is read as `More`.
pub fn beginnings_are_read()
    ensures { (bytes following : List ℕ) (request : Request) (answer : Taken) → following ≢ []
        → IsTaken (bytes ++ following) (Whole request (length (bytes ++ following)))
        → IsTaken bytes answer → answer ≡ More }
{}

/// A law: a stream of whole requests is read as the same list however it is cut. The requests that
/// are read from its first part are the front of the list. What is left of this part and the second
/// part are read as the others.
pub fn any_cutting_is_read()
    ensures { (first second : List ℕ) (all some : List Request) (rest : List ℕ)
        → AreRead (first ++ second) all [] → AreRead first some rest → (others : List Request)
        × (all ≡ some ++ others) × AreRead (rest ++ second) others [] }
{}

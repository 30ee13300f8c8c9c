ghost use Rattle.std.specs.Prelude.{◌≡◌, ◌∷◌, true, codes, pos, []};
ghost use Rattle.jac_value.specs.declared.value.Value.TheVariants as value;
ghost use Rattle.jac_lang.specs.declared.queries.Order.TheVariants as orders;
ghost use Rattle.jac_lang.specs.Syntax.{Expression, Statement};
ghost use Rattle.jac_plain.specs.Statements.{leaves_all};
ghost use Rattle.jac_plain.specs.Requests.{body_of};
ghost use Rattle.jac_semantics_examples.specs.Terms.{num, minus, word, truth, the, add, mul, lt, a_binder, sole, asks, steps};
ghost use Rattle.jac_semantics_examples.specs.Library.{library_tables, asked_by_ann, begun_with, leaves_library, puts, names_value, first_made};

/// Each `put` adds the text of a value to the page.
pub fn puts_texts()
    ensures number { puts (Statement.put (add (num 2) (num 3)) ∷ []) ≡ codes "5" }
    ensures negative { puts (Statement.put (minus 3) ∷ []) ≡ codes "-3" }
    ensures in_turn { puts (Statement.put (word (codes "a")) ∷ Statement.put (truth true)
        ∷ Statement.put (word (codes "<")) ∷ []) ≡ codes "atrue<" }
    ensures nothing { puts [] ≡ [] }
    ensures in_a_block { puts (Statement.block (steps (Statement.put (word (codes "a")) ∷ []))
        ∷ Statement.put (word (codes "b")) ∷ []) ≡ codes "ab" }
    ensures template { puts (Statement.template (codes "a") ∷ []) ≡ [] }
{}

/// `esc` adds the text of a value as HTML: `&`, `<`, `>`, `"` and `'` are escaped, and no other
/// byte.
pub fn escapes()
    ensures angles { puts (Statement.escape (word (codes "<b>")) ∷ []) ≡ codes "&lt;b&gt;" }
    ensures all { puts (Statement.escape (word (codes "&<>\"'")) ∷ [])
        ≡ codes "&amp;&lt;&gt;&quot;&#39;" }
    ensures others { puts (Statement.escape (word (codes "a b%#;=?!(")) ∷ [])
        ≡ codes "a b%#;=?!(" }
    ensures number { puts (Statement.escape (num 12) ∷ []) ≡ codes "12" }
{}

/// `let` binds a name for its own statements only. An inner binding hides an outer one.
pub fn scopes()
    ensures squared { puts (Statement.bind (codes "x") (num 2)
        (steps (Statement.put (mul (the (codes "x")) (the (codes "x"))) ∷ [])) ∷ [])
        ≡ codes "4" }
    ensures inner { puts (Statement.bind (codes "x") (num 1) (steps (Statement.bind (codes "x")
        (num 2) (steps (Statement.put (the (codes "x")) ∷ []))
        ∷ Statement.put (the (codes "x")) ∷ [])) ∷ []) ≡ codes "21" }
    ensures gone { (leaves_library (Statement.bind (codes "x") (num 1) (steps []) ∷ [])).env
        ≡ [] }
    ensures kept { (leaves_all (asked_by_ann 2)
        (steps (Statement.bind (codes "x") (num 1) (steps []) ∷ []))
        (begun_with (names_value (codes "y") (value.Int (pos 7)) ∷ []) library_tables)).env
        ≡ names_value (codes "y") (value.Int (pos 7)) ∷ [] }
{}

/// `assign` changes the innermost binding of the name, even the binding of an outer `let`.
pub fn assigns()
    ensures counted { puts (Statement.bind (codes "x") (num 2)
        (steps (Statement.assign (codes "x") (add (the (codes "x")) (num 1))
        ∷ Statement.put (the (codes "x")) ∷ [])) ∷ []) ≡ codes "3" }
    ensures innermost { puts (Statement.bind (codes "x") (num 1) (steps (Statement.bind (codes "x")
        (num 2) (steps (Statement.assign (codes "x") (num 5)
        ∷ Statement.put (the (codes "x")) ∷ [])) ∷ Statement.put (the (codes "x")) ∷ [])) ∷ [])
        ≡ codes "51" }
    ensures around { puts (Statement.bind (codes "x") (num 1) (steps (Statement.bind (codes "y")
        (num 2) (steps (Statement.assign (codes "x") (num 7) ∷ []))
        ∷ Statement.put (the (codes "x")) ∷ [])) ∷ []) ≡ codes "7" }
    ensures others { (leaves_all (asked_by_ann 2)
        (steps (Statement.assign (codes "x") (num 5) ∷ []))
        (begun_with (names_value (codes "x") (value.Int (pos 1))
        ∷ names_value (codes "x") (value.Int (pos 2))
        ∷ names_value (codes "y") (value.Int (pos 3)) ∷ []) library_tables)).env
        ≡ names_value (codes "x") (value.Int (pos 1))
        ∷ names_value (codes "x") (value.Int (pos 5))
        ∷ names_value (codes "y") (value.Int (pos 3)) ∷ [] }
{}

/// `if` runs its first statements if the condition is true. If not, it runs the second.
pub fn branches()
    ensures less { puts (Statement.branch (lt (num 1) (num 2))
        (steps (Statement.put (word (codes "less")) ∷ []))
        (steps (Statement.put (word (codes "not less")) ∷ [])) ∷ []) ≡ codes "less" }
    ensures not_less { puts (Statement.branch (lt (num 2) (num 1))
        (steps (Statement.put (word (codes "less")) ∷ []))
        (steps (Statement.put (word (codes "not less")) ∷ [])) ∷ []) ≡ codes "not less" }
    ensures unlike { puts (Statement.branch (num 1)
        (steps (Statement.put (word (codes "a")) ∷ []))
        (steps (Statement.put (word (codes "b")) ∷ [])) ∷ []) ≡ codes "b" }
{}

/// `for` runs its statements for each answer, in the query's order, with the names bound to its
/// records. The answers are computed once, before the first statement. The names are gone
/// afterwards.
pub fn loops()
    ensures by_key { puts (Statement.each (asks (sole (codes "b") (codes "Book")) (truth true)
        orders.Key) (steps (Statement.put (Expression.get (codes "Book") (codes "title")
        (the (codes "b"))) ∷ Statement.put (word (codes ";")) ∷ [])) ∷ [])
        ≡ codes "Emma;Odyssey;" }
    ensures by_name { puts (Statement.each (asks (sole (codes "r") (codes "Reader")) (truth true)
        (orders.Up (codes "r") (codes "name"))) (steps (Statement.put (Expression.get
        (codes "Reader") (codes "name") (the (codes "r"))) ∷ Statement.put (word (codes ";"))
        ∷ [])) ∷ []) ≡ codes "Ada;Bea;" }
    ensures by_pairs { puts (Statement.each (asks
        (a_binder (codes "r") (codes "Reader") ∷ a_binder (codes "b") (codes "Book") ∷ [])
        (truth true) (orders.Down (codes "b") (codes "cents")))
        (steps (Statement.put (Expression.get (codes "Reader") (codes "name") (the (codes "r")))
        ∷ Statement.put (Expression.get (codes "Book") (codes "cents") (the (codes "b")))
        ∷ Statement.put (word (codes ";")) ∷ [])) ∷ [])
        ≡ codes "Bea2500;Ada2500;Bea900;Ada900;" }
    ensures adds_up { puts (Statement.bind (codes "n") (num 0) (steps (Statement.each
        (asks (sole (codes "b") (codes "Book")) (truth true) orders.Key)
        (steps (Statement.assign (codes "n") (add (the (codes "n"))
        (Expression.get (codes "Book") (codes "cents") (the (codes "b")))) ∷ []))
        ∷ Statement.put (the (codes "n")) ∷ [])) ∷ []) ≡ codes "3400" }
    ensures taken_once { puts (Statement.each (asks (sole (codes "b") (codes "Book")) (truth true)
        orders.Key) (steps (Statement.delete (codes "Book") (first_made (codes "Book"))
        ∷ Statement.put (word (codes "x")) ∷ [])) ∷ []) ≡ codes "xx" }
    ensures gone { (leaves_library (Statement.each (asks (sole (codes "b") (codes "Book"))
        (truth true) orders.Key) (steps []) ∷ [])).env ≡ [] }
{}

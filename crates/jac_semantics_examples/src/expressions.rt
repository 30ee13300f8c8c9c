ghost use Rattle.std.specs.Prelude.{◌≡◌, ◌∷◌, true, false, codes, pos, negsuc, Some, None, []};
ghost use Rattle.jac_value.specs.declared.value.Value.TheVariants as value;
ghost use Rattle.jac_lang.specs.declared.queries.Order.TheVariants as orders;
ghost use Rattle.jac_lang.specs.Syntax.{Expression};
ghost use Rattle.jac_plain.specs.Expressions.{has_none, mean};
ghost use Rattle.jac_semantics_examples.specs.Terms.{num, minus, word, truth, the, add, sub, mul, eq, lt, and_also, or_also, cat_of, a_binder, sole};
ghost use Rattle.jac_semantics_examples.specs.Library.{library, in_library, bound_there, names_value, row, first_made};

/// A literal is its own value. `(none M)` is no reference.
pub fn reads_literals()
    ensures number { in_library (num 12) ≡ value.Int (pos 12) }
    ensures negative { in_library (minus 3) ≡ value.Int (negsuc 2) }
    ensures text { in_library (word (codes "text")) ≡ value.Text (codes "text") }
    ensures truth { in_library (truth true) ≡ value.Bool true }
    ensures falsehood { in_library (truth false) ≡ value.Bool false }
    ensures no_reference { in_library (Expression.none_of (codes "Book")) ≡ value.Ref None }
{}

/// A name has the value of its innermost binding. `viewer` is the viewer or none, and `this` is the
/// record of the policy. The checker refuses a name that nothing binds. Such a name has the value
/// 0.
pub fn looks_up()
    ensures innermost { bound_there (names_value (codes "x") (value.Int (pos 1))
        ∷ names_value (codes "x") (value.Int (pos 2))
        ∷ names_value (codes "y") (value.Int (pos 3)) ∷ []) (the (codes "x"))
        ≡ value.Int (pos 2) }
    ensures outer { bound_there (names_value (codes "x") (value.Int (pos 1))
        ∷ names_value (codes "y") (value.Int (pos 3)) ∷ []) (the (codes "x"))
        ≡ value.Int (pos 1) }
    ensures in_operands { bound_there (names_value (codes "x") (value.Int (pos 5))
        ∷ names_value (codes "y") (value.Int (pos 2)) ∷ [])
        (sub (the (codes "x")) (the (codes "y"))) ≡ value.Int (pos 3) }
    ensures in_not { bound_there (names_value (codes "x") (value.Bool true) ∷ [])
        (Expression.negated (the (codes "x"))) ≡ value.Bool false }
    ensures in_texts { bound_there (names_value (codes "x") (value.Int (pos 5))
        ∷ names_value (codes "y") (value.Text (codes "b")) ∷ [])
        (cat_of (the (codes "y") ∷ Expression.str (the (codes "x")) ∷ the (codes "y") ∷ []))
        ≡ value.Text (codes "b5b") }
    ensures in_choices { bound_there (names_value (codes "x") (value.Bool true)
        ∷ names_value (codes "y") (value.Int (pos 2)) ∷ [])
        (Expression.pick (the (codes "x")) (the (codes "y")) (num 3)) ≡ value.Int (pos 2) }
    ensures in_other_choices { bound_there (names_value (codes "x") (value.Bool false)
        ∷ names_value (codes "y") (value.Int (pos 2)) ∷ [])
        (Expression.pick (the (codes "x")) (num 3) (the (codes "y"))) ≡ value.Int (pos 2) }
    ensures unbound { in_library (the (codes "x")) ≡ value.Int (pos 0) }
    ensures viewer { in_library Expression.viewer ≡ value.Ref (Some 4096) }
    ensures nobody { mean (record library { viewer = None }) Expression.viewer []
        ≡ value.Ref None }
    ensures this { mean (record library { this = Some 4161 }) Expression.this []
        ≡ value.Ref (Some 4161) }
{}

/// `(get M F e)` is field F of the record of M that e refers to. It is the default of F's kind if e
/// is no reference, or if it refers to a record that doesn't exist.
pub fn fetches()
    ensures name { in_library (Expression.get (codes "User") (codes "name") Expression.viewer)
        ≡ value.Text (codes "Ann") }
    ensures second { bound_there (names_value (codes "b") (value.Ref (Some 4354)) ∷ [])
        (Expression.get (codes "Book") (codes "cents") (the (codes "b")))
        ≡ value.Int (pos 2500) }
    ensures first { bound_there (names_value (codes "b") (value.Ref (Some 4354)) ∷ [])
        (Expression.get (codes "Book") (codes "title") (the (codes "b")))
        ≡ value.Text (codes "Odyssey") }
    ensures reference { in_library
        (Expression.get (codes "Loan") (codes "reader") (first_made (codes "Loan")))
        ≡ value.Ref (Some 4161) }
    ensures absent_text { in_library
        (Expression.get (codes "Book") (codes "title") (Expression.none_of (codes "Book")))
        ≡ value.Text [] }
    ensures absent_number { in_library
        (Expression.get (codes "Book") (codes "cents") (Expression.none_of (codes "Book")))
        ≡ value.Int (pos 0) }
    ensures absent_reference { in_library
        (Expression.get (codes "Loan") (codes "book") (Expression.none_of (codes "Loan")))
        ≡ value.Ref None }
    ensures gone { bound_there (names_value (codes "b") (value.Ref (Some 4418)) ∷ [])
        (Expression.get (codes "Book") (codes "title") (the (codes "b"))) ≡ value.Text [] }
    ensures gone_number { bound_there (names_value (codes "b") (value.Ref (Some 4418)) ∷ [])
        (Expression.get (codes "Book") (codes "cents") (the (codes "b"))) ≡ value.Int (pos 0) }
    ensures no_field { in_library
        (Expression.get (codes "User") (codes "town") Expression.viewer) ≡ value.Int (pos 0) }
    ensures no_model { in_library
        (Expression.get (codes "Town") (codes "name") Expression.viewer) ≡ value.Int (pos 0) }
{}

/// `(live e)` is true if e refers to a record that exists.
pub fn lives()
    ensures stands { in_library (Expression.live Expression.viewer) ≡ value.Bool true }
    ensures second { bound_there (names_value (codes "b") (value.Ref (Some 4354)) ∷ [])
        (Expression.live (the (codes "b"))) ≡ value.Bool true }
    ensures none { in_library (Expression.live (Expression.none_of (codes "Book")))
        ≡ value.Bool false }
    ensures gone { bound_there (names_value (codes "b") (value.Ref (Some 4418)) ∷ [])
        (Expression.live (the (codes "b"))) ≡ value.Bool false }
    ensures no_reference { in_library (Expression.live (num 4096)) ≡ value.Bool false }
{}

/// `add`, `sub` and `mul` give the exact result, or the nearest number of 64 bits.
pub fn computes()
    ensures sum { in_library (add (num 2) (num 3)) ≡ value.Int (pos 5) }
    ensures difference { in_library (sub (num 2) (num 5)) ≡ value.Int (negsuc 2) }
    ensures product { in_library (mul (num 7) (num 6)) ≡ value.Int (pos 42) }
    ensures most { in_library (add (num 9223372036854775807) (num 1))
        ≡ value.Int (pos 9223372036854775807) }
    ensures least { in_library (sub (minus 9223372036854775807) (num 2))
        ≡ value.Int (negsuc 9223372036854775807) }
    ensures most_product { in_library (mul (num 4294967296) (num 4294967296))
        ≡ value.Int (pos 9223372036854775807) }
    ensures unlike { in_library (add (word (codes "a")) (num 3)) ≡ value.Int (pos 3) }
{}

/// `eq` is true if both values are the same, of whatever kind. None equals none. `lt` compares two
/// numbers as numbers, and two texts by their bytes.
pub fn compares()
    ensures same_number { in_library (eq (sub (num 5) (num 2)) (num 3)) ≡ value.Bool true }
    ensures other_number { in_library (eq (num 3) (num 4)) ≡ value.Bool false }
    ensures same_text { in_library (eq (word (codes "ab")) (word (codes "ab")))
        ≡ value.Bool true }
    ensures other_text { in_library (eq (word (codes "ab")) (word (codes "a")))
        ≡ value.Bool false }
    ensures same_truth { in_library (eq (truth false) (truth false)) ≡ value.Bool true }
    ensures other_truth { in_library (eq (truth true) (truth false)) ≡ value.Bool false }
    ensures both_none { in_library
        (eq (Expression.none_of (codes "User")) (Expression.none_of (codes "User")))
        ≡ value.Bool true }
    ensures one_none { in_library (eq Expression.viewer (Expression.none_of (codes "User")))
        ≡ value.Bool false }
    ensures same_record { in_library (eq Expression.viewer Expression.viewer)
        ≡ value.Bool true }
    ensures less { in_library (lt (num 2) (num 10)) ≡ value.Bool true }
    ensures greater { in_library (lt (num 10) (num 2)) ≡ value.Bool false }
    ensures not_less { in_library (lt (num 3) (num 3)) ≡ value.Bool false }
    ensures below_zero { in_library (lt (minus 1) (num 0)) ≡ value.Bool true }
    ensures by_bytes { in_library (lt (word (codes "Z")) (word (codes "a"))) ≡ value.Bool true }
    ensures by_first_byte { in_library (lt (word (codes "2")) (word (codes "10")))
        ≡ value.Bool false }
    ensures longer { in_library (lt (word (codes "a")) (word (codes "ab"))) ≡ value.Bool true }
    ensures same_words { in_library (lt (word (codes "a")) (word (codes "a")))
        ≡ value.Bool false }
    ensures truths { in_library (lt (truth false) (truth true)) ≡ value.Bool false }
{}

/// `and`, `or` and `not`, in all cases.
pub fn reasons()
    ensures both { in_library (and_also (truth true) (truth true)) ≡ value.Bool true }
    ensures not_second { in_library (and_also (truth true) (truth false)) ≡ value.Bool false }
    ensures not_first { in_library (and_also (truth false) (truth true)) ≡ value.Bool false }
    ensures neither { in_library (and_also (truth false) (truth false)) ≡ value.Bool false }
    ensures one_or_both { in_library (or_also (truth true) (truth true)) ≡ value.Bool true }
    ensures one_first { in_library (or_also (truth true) (truth false)) ≡ value.Bool true }
    ensures one_second { in_library (or_also (truth false) (truth true)) ≡ value.Bool true }
    ensures none { in_library (or_also (truth false) (truth false)) ≡ value.Bool false }
    ensures not_true { in_library (Expression.negated (truth true)) ≡ value.Bool false }
    ensures not_false { in_library (Expression.negated (truth false)) ≡ value.Bool true }
    ensures unlike { in_library (or_also (truth false) (num 1)) ≡ value.Bool false }
{}

/// `cat` joins texts. `str` is the text of a value: the decimal number, the text itself, `true` or
/// `false`, the decimal id of a reference, or nothing for none.
pub fn joins()
    ensures joined { in_library (cat_of (word (codes "a") ∷ word (codes "b")
        ∷ word (codes "c") ∷ [])) ≡ value.Text (codes "abc") }
    ensures nothing { in_library (cat_of []) ≡ value.Text [] }
    ensures unlike { in_library (cat_of (num 1 ∷ word (codes "b") ∷ []))
        ≡ value.Text (codes "b") }
    ensures number { in_library (Expression.str (num 12)) ≡ value.Text (codes "12") }
    ensures negative { in_library (Expression.str (minus 3)) ≡ value.Text (codes "-3") }
    ensures text { in_library (Expression.str (word (codes "ab"))) ≡ value.Text (codes "ab") }
    ensures truth { in_library (Expression.str (truth true)) ≡ value.Text (codes "true") }
    ensures falsehood { in_library (Expression.str (truth false)) ≡ value.Text (codes "false") }
    ensures reference { in_library (Expression.str Expression.viewer)
        ≡ value.Text (codes "4096") }
    ensures no_reference { in_library (Expression.str (Expression.none_of (codes "User")))
        ≡ value.Text [] }
{}

/// `(pick c a b)` is a if c is true. If not, it is b.
pub fn picks()
    ensures first { in_library (Expression.pick (truth true) (word (codes "y"))
        (word (codes "n"))) ≡ value.Text (codes "y") }
    ensures second { in_library (Expression.pick (truth false) (word (codes "y"))
        (word (codes "n"))) ≡ value.Text (codes "n") }
    ensures unlike { in_library (Expression.pick (num 1) (word (codes "y"))
        (word (codes "n"))) ≡ value.Text (codes "n") }
{}

/// `count` is the number of answers. `sum` adds the term over the answers in their order, and each
/// step gives the nearest number of 64 bits. With several binders, or none, neither is a valid
/// form, and the value is 0.
pub fn counts()
    ensures books { in_library (Expression.count (sole (codes "b") (codes "Book")) (truth true)
        orders.Key) ≡ value.Int (pos 2) }
    ensures cheap { in_library (Expression.count (sole (codes "b") (codes "Book"))
        (lt (Expression.get (codes "Book") (codes "cents") (the (codes "b"))) (num 1000))
        orders.Key) ≡ value.Int (pos 1) }
    ensures none { in_library (Expression.count (sole (codes "b") (codes "Book")) (truth false)
        orders.Key) ≡ value.Int (pos 0) }
    ensures pairs { in_library (Expression.count
        (a_binder (codes "r") (codes "Reader") ∷ a_binder (codes "b") (codes "Book") ∷ [])
        (truth true) orders.Key) ≡ value.Int (pos 0) }
    ensures no_binder { in_library (Expression.count [] (truth true) orders.Key)
        ≡ value.Int (pos 0) }
    ensures without { has_none [] ≡ true }
    ensures with_one { has_none (sole (codes "b") (codes "Book")) ≡ false }
    ensures cents { in_library (Expression.sum (sole (codes "b") (codes "Book")) (truth true)
        orders.Key (Expression.get (codes "Book") (codes "cents") (the (codes "b"))))
        ≡ value.Int (pos 3400) }
    ensures dear { in_library (Expression.sum (sole (codes "b") (codes "Book"))
        (lt (num 1000) (Expression.get (codes "Book") (codes "cents") (the (codes "b"))))
        orders.Key (Expression.get (codes "Book") (codes "cents") (the (codes "b"))))
        ≡ value.Int (pos 2500) }
    ensures no_cents { in_library (Expression.sum (sole (codes "b") (codes "Book")) (truth false)
        orders.Key (num 7)) ≡ value.Int (pos 0) }
    ensures no_pairs { in_library (Expression.sum
        (a_binder (codes "r") (codes "Reader") ∷ a_binder (codes "b") (codes "Book") ∷ [])
        (truth true) orders.Key (num 7)) ≡ value.Int (pos 0) }
    ensures in_order { mean (record library {
      tables = [] ∷ [] ∷ (
          row 4098 (value.Text [] ∷ value.Int (pos 9223372036854775807) ∷ [])
          ∷ row 4162 (value.Text [] ∷ value.Int (pos 1) ∷ [])
          ∷ row 4226 (value.Text [] ∷ value.Int (negsuc 0) ∷ []) ∷ []) ∷ [];
    })
        (Expression.sum (sole (codes "b") (codes "Book")) (truth true) orders.Key
        (Expression.get (codes "Book") (codes "cents") (the (codes "b")))) []
        ≡ value.Int (pos 9223372036854775806) }
    ensures in_rising_order { mean (record library {
      tables = [] ∷ [] ∷ (
          row 4098 (value.Text [] ∷ value.Int (pos 9223372036854775807) ∷ [])
          ∷ row 4162 (value.Text [] ∷ value.Int (pos 1) ∷ [])
          ∷ row 4226 (value.Text [] ∷ value.Int (negsuc 0) ∷ []) ∷ []) ∷ [];
    })
        (Expression.sum (sole (codes "b") (codes "Book")) (truth true)
        (orders.Up (codes "b") (codes "cents"))
        (Expression.get (codes "Book") (codes "cents") (the (codes "b")))) []
        ≡ value.Int (pos 9223372036854775807) }
{}

/// `some` is true if the query has an answer. `first` is the record of the first binder in the
/// first answer, or none.
pub fn finds()
    ensures some { in_library (Expression.any_of (sole (codes "b") (codes "Book")) (truth true)
        orders.Key) ≡ value.Bool true }
    ensures none { in_library (Expression.any_of (sole (codes "b") (codes "Book"))
        (eq (Expression.get (codes "Book") (codes "cents") (the (codes "b"))) (num 0))
        orders.Key) ≡ value.Bool false }
    ensures first { in_library (first_made (codes "Book")) ≡ value.Ref (Some 4290) }
    ensures dearest { in_library (Expression.first (sole (codes "b") (codes "Book")) (truth true)
        (orders.Down (codes "b") (codes "cents"))) ≡ value.Ref (Some 4354) }
    ensures no_first { in_library (Expression.first (sole (codes "b") (codes "Book"))
        (truth false) orders.Key) ≡ value.Ref None }
    ensures first_binder { in_library (Expression.first
        (a_binder (codes "r") (codes "Reader") ∷ a_binder (codes "b") (codes "Book") ∷ [])
        (truth true) (orders.Up (codes "r") (codes "name"))) ≡ value.Ref (Some 4225) }
{}

ghost use Rattle.std.specs.Prelude.{◌≡◌, ◌∷◌, true, codes, pos, negsuc, Some, None, []};
ghost use Rattle.jac_value.specs.declared.value.Value.TheVariants as value;
ghost use Rattle.jac_lang.specs.declared.queries.Order.TheVariants as orders;
ghost use Rattle.jac_lang.specs.Syntax.{Expression};
ghost use Rattle.jac_plain.specs.Expressions.{answers};
ghost use Rattle.jac_semantics_examples.specs.Terms.{num, truth, the, eq, lt, and_also, a_binder, sole, asks};
ghost use Rattle.jac_semantics_examples.specs.Library.{library, found_there, names_value, row};

/// If its condition is always true, a query's answers are all tuples of records, in nested order:
/// the first binder is the outermost.
pub fn crosses()
    ensures readers { found_there (asks (sole (codes "r") (codes "Reader")) (truth true) orders.Key)
        ≡ (4161 ∷ []) ∷ (4225 ∷ []) ∷ [] }
    ensures pairs { found_there (asks
        (a_binder (codes "r") (codes "Reader") ∷ a_binder (codes "b") (codes "Book") ∷ [])
        (truth true) orders.Key)
        ≡ (4161 ∷ 4290 ∷ []) ∷ (4161 ∷ 4354 ∷ []) ∷ (4225 ∷ 4290 ∷ []) ∷ (4225 ∷ 4354 ∷ []) ∷ [] }
    ensures triples { found_there (asks (a_binder (codes "b") (codes "Book")
        ∷ a_binder (codes "u") (codes "User") ∷ a_binder (codes "r") (codes "Reader") ∷ [])
        (truth true) orders.Key)
        ≡ (4290 ∷ 4096 ∷ 4161 ∷ []) ∷ (4290 ∷ 4096 ∷ 4225 ∷ [])
        ∷ (4354 ∷ 4096 ∷ 4161 ∷ []) ∷ (4354 ∷ 4096 ∷ 4225 ∷ []) ∷ [] }
    ensures no_model { found_there (asks (sole (codes "t") (codes "Town")) (truth true) orders.Key)
        ≡ [] }
{}

/// The answers are the tuples at which the condition is true. In the condition the binders' names
/// are bound, the last one innermost, and so are the names bound around the query. The condition
/// may contain another query.
pub fn selects()
    ensures cheap { found_there (asks (sole (codes "b") (codes "Book"))
        (lt (Expression.get (codes "Book") (codes "cents") (the (codes "b"))) (num 1000))
        orders.Key) ≡ (4290 ∷ []) ∷ [] }
    ensures dear { found_there (asks (sole (codes "b") (codes "Book"))
        (lt (num 1000) (Expression.get (codes "Book") (codes "cents") (the (codes "b"))))
        orders.Key) ≡ (4354 ∷ []) ∷ [] }
    ensures lent { found_there (asks
        (a_binder (codes "r") (codes "Reader") ∷ a_binder (codes "b") (codes "Book") ∷ [])
        (Expression.any_of (sole (codes "l") (codes "Loan"))
        (and_also
        (eq (Expression.get (codes "Loan") (codes "reader") (the (codes "l"))) (the (codes "r")))
        (eq (Expression.get (codes "Loan") (codes "book") (the (codes "l"))) (the (codes "b"))))
        orders.Key) orders.Key) ≡ (4161 ∷ 4290 ∷ []) ∷ [] }
    ensures unlent { found_there (asks (sole (codes "b") (codes "Book"))
        (Expression.negated (Expression.any_of (sole (codes "l") (codes "Loan"))
        (eq (Expression.get (codes "Loan") (codes "book") (the (codes "l"))) (the (codes "b")))
        orders.Key)) orders.Key) ≡ (4354 ∷ []) ∷ [] }
    ensures around { answers library (asks (sole (codes "l") (codes "Loan"))
        (eq (Expression.get (codes "Loan") (codes "reader") (the (codes "l"))) (the (codes "r")))
        orders.Key) (names_value (codes "r") (value.Ref (Some 4161)) ∷ [])
        ≡ (4419 ∷ []) ∷ [] }
    ensures innermost { answers library (asks (sole (codes "b") (codes "Book"))
        (Expression.live (the (codes "b"))) orders.Key)
        (names_value (codes "b") (value.Ref None) ∷ []) ≡ (4290 ∷ []) ∷ (4354 ∷ []) ∷ [] }
{}

/// Answers that tie have the order that they have under `key`, whether the order rises or falls,
/// and whichever binder's field they are sorted by.
pub fn orders_ties()
    ensures falling { found_there (asks
        (a_binder (codes "r") (codes "Reader") ∷ a_binder (codes "b") (codes "Book") ∷ [])
        (truth true) (orders.Down (codes "b") (codes "cents")))
        ≡ (4161 ∷ 4354 ∷ []) ∷ (4225 ∷ 4354 ∷ []) ∷ (4161 ∷ 4290 ∷ []) ∷ (4225 ∷ 4290 ∷ []) ∷ [] }
    ensures rising { found_there (asks
        (a_binder (codes "r") (codes "Reader") ∷ a_binder (codes "b") (codes "Book") ∷ [])
        (truth true) (orders.Up (codes "b") (codes "cents")))
        ≡ (4161 ∷ 4290 ∷ []) ∷ (4225 ∷ 4290 ∷ []) ∷ (4161 ∷ 4354 ∷ []) ∷ (4225 ∷ 4354 ∷ []) ∷ [] }
    ensures by_first { found_there (asks
        (a_binder (codes "r") (codes "Reader") ∷ a_binder (codes "b") (codes "Book") ∷ [])
        (truth true) (orders.Up (codes "r") (codes "name")))
        ≡ (4225 ∷ 4290 ∷ []) ∷ (4225 ∷ 4354 ∷ []) ∷ (4161 ∷ 4290 ∷ []) ∷ (4161 ∷ 4354 ∷ []) ∷ [] }
{}

/// Numbers are sorted as numbers, and texts by their bytes. No reference comes before a reference.
/// References are sorted by their ids.
pub fn orders_values()
    ensures texts { found_there (asks (sole (codes "r") (codes "Reader")) (truth true)
        (orders.Up (codes "r") (codes "name"))) ≡ (4225 ∷ []) ∷ (4161 ∷ []) ∷ [] }
    ensures falling_texts { found_there (asks (sole (codes "r") (codes "Reader")) (truth true)
        (orders.Down (codes "r") (codes "name"))) ≡ (4161 ∷ []) ∷ (4225 ∷ []) ∷ [] }
    ensures numbers { answers (record library {
      tables = [] ∷ [] ∷ (
          row 4098 (value.Text [] ∷ value.Int (pos 10) ∷ [])
          ∷ row 4162 (value.Text [] ∷ value.Int (pos 9) ∷ [])
          ∷ row 4226 (value.Text [] ∷ value.Int (negsuc 0) ∷ []) ∷ []) ∷ [];
    })
        (asks (sole (codes "b") (codes "Book")) (truth true)
        (orders.Up (codes "b") (codes "cents"))) []
        ≡ (4226 ∷ []) ∷ (4162 ∷ []) ∷ (4098 ∷ []) ∷ [] }
    ensures references { answers (record library {
      tables = [] ∷ [] ∷ [] ∷ (
          row 4099 (value.Ref (Some 4354) ∷ value.Ref None ∷ [])
          ∷ row 4163 (value.Ref None ∷ value.Ref None ∷ [])
          ∷ row 4227 (value.Ref (Some 4290) ∷ value.Ref None ∷ []) ∷ []) ∷ [];
    })
        (asks (sole (codes "l") (codes "Loan")) (truth true)
        (orders.Up (codes "l") (codes "book"))) []
        ≡ (4163 ∷ []) ∷ (4227 ∷ []) ∷ (4099 ∷ []) ∷ [] }
{}

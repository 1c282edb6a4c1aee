// Laws of scopes: each function does nothing, and its contract is the law.

ghost use Rattle.std.specs.Prelude.{◌≡◌, ◌≢◌, ℕ, List, Some, None};
ghost use Rattle.c_scopes.specs.Rows.{Scope, Scoped};
ghost use Rattle.c_scopes.specs.Scoping.{find, find_here, find_outer, declared, all_declared, entered, left};

/// What was declared is found.
pub fn declared_is_found<T>()
    ensures { (x : List ℕ) (what : T) (s : Scoped T) → find_here x s ≡ None → find x (declared x what s) ≡ Some what }
{}

/// A declaration hides none of the other names.
pub fn others_stay<T>()
    ensures everywhere { (x y : List ℕ) (what : T) (s : Scoped T) → y ≢ x → find y (declared x what s) ≡ find y s }
    ensures here { (x y : List ℕ) (what : T) (s : Scoped T) → y ≢ x → find_here y (declared x what s) ≡ find_here y s }
{}

/// A scope that was entered and left leaves the scopes as before, whatever was declared in it.
pub fn left_as_before<T>()
    ensures { (rows : Scope T) (s : Scoped T) → left (all_declared rows (entered s)) ≡ s }
{}

/// A scope that was just entered has no name, and hides none.
pub fn fresh_scope<T>()
    ensures none { (x : List ℕ) (s : Scoped T) → find_here x (entered s) ≡ None }
    ensures same { (x : List ℕ) (s : Scoped T) → find x (entered s) ≡ find x s }
{}

/// A name that is declared in the innermost scope hides the same name of the outer ones.
pub fn inner_hides<T>()
    ensures { (x : List ℕ) (what : T) (s : Scoped T) → find x (declared x what (entered s)) ≡ Some what }
{}

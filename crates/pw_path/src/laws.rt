//! Laws of the tree, over a value for each label. Each function has an empty body: its contract is the law.

ghost use Rattle.std.specs.Prelude.{◌≡◌, ◌⊎◌, ◌==◌, ℕ, ◌<◌, List, length, if◌then◌else◌};
ghost use Rattle.pw_path.specs.Tree.{root, aux_of, AgreeBut, AllHashes};
ghost use Rattle.pw_path.specs.Path.{root_of, IsAux, OnPath, OnTree, HasNoCollision};

/// A label's value with its siblings gives the root of the whole tree.
pub fn true_path_gives_root()
    ensures { (values : ℕ → List ℕ) (label : ℕ)
        → label < 16384
        → root_of label (values label) (aux_of values label) ≡ root values }
{}

/// Whatever value and siblings give the root of a tree, they are the label's own, if of the inputs that
/// are hashed on that path and in the tree no two have one hash.
pub fn only_true_path_gives_root()
    ensures { (values : ℕ → List ℕ) (label : ℕ) (value : List ℕ) (aux : List (List (List ℕ)))
        → label < 16384
        → AllHashes values
        → length value ≡ 32
        → IsAux aux
        → HasNoCollision (λ input. OnPath 0 label value aux input ⊎ OnTree values input)
        → root_of label value aux ≡ root values
        → (value ≡ values label) × (aux ≡ aux_of values label) }
{}

/// Where one label gets another value, that value with the siblings as they were gives the new root.
pub fn changed_value_gives_new_root()
    ensures { (values : ℕ → List ℕ) (label : ℕ) (value : List ℕ)
        → label < 16384
        → root_of label value (aux_of values label)
        ≡ root (λ i. if i == label then value else values i) }
{}

/// A label's siblings don't depend on its own value.
pub fn siblings_stay()
    ensures { (old new : ℕ → List ℕ) (label : ℕ)
        → AgreeBut label old new
        → aux_of new label ≡ aux_of old label }
{}

/// Two trees with one root have the same value at each label, if of the inputs that are hashed for them
/// no two have one hash.
pub fn equal_roots_have_equal_values()
    ensures { (values others : ℕ → List ℕ) (label : ℕ)
        → label < 16384
        → AllHashes values
        → AllHashes others
        → HasNoCollision (λ input. OnTree values input ⊎ OnTree others input)
        → root values ≡ root others
        → values label ≡ others label }
{}

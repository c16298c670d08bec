//! Laws of the spellings, as contracts of functions that do nothing.
ghost use Rattle.std.specs.Prelude.{◌≡◌, ◌++◌, IsTrue, List, length, ℕ};
ghost use Rattle.std.specs.Cmp.Lexicographic.{slice_cmp};
ghost use Rattle.std.specs.Ordering.{nat_cmp};
ghost use Rattle.std.specs.declared.cmp.Ordering.TheVariants.{Equal};
ghost use Rattle.dbpl_codec.specs.KeySpelling.{is_key, key_bytes_of};
ghost use Rattle.dbpl_codec.specs.TypeSpelling.{type_bytes, type_fits};
ghost use Rattle.dbpl_codec.specs.ValueSpelling.{bytes_of, value_fits};
ghost use Rattle.dbpl_value.specs.Keys.{key_cmp, key_from};
ghost use Rattle.dbpl_value.specs.Sizes.{size_of};
ghost use Rattle.dbpl_value.specs.Types.{is_type};
ghost use Rattle.dbpl_value.specs.Values.{is_of};
ghost use Rattle.dbpl_value.specs.declared.db_type.DbType.{DbType};
ghost use Rattle.dbpl_value.specs.declared.value.Value.{Value};

/// No spelling of a value begins another of the same type, and two values with one spelling are equal.
pub fn one_value()
    ensures { (t : DbType) (v w : Value) (rest other : List ℕ) → IsTrue (is_type t) → IsTrue (is_of t v) →
        IsTrue (value_fits t v) → IsTrue (is_of t w) → IsTrue (value_fits t w) →
        bytes_of t v ++ rest ≡ bytes_of t w ++ other → (v ≡ w) × (rest ≡ other) }
{}

/// No descriptor begins another, and two types with one descriptor are equal.
pub fn one_type()
    ensures { (t u : DbType) (rest other : List ℕ) → IsTrue (is_type t) → IsTrue (type_fits t) → IsTrue (is_type u) →
        IsTrue (type_fits u) → type_bytes t ++ rest ≡ type_bytes u ++ other → (t ≡ u) × (rest ≡ other) }
{}

/// The coded size of a value is the length of its spelling.
pub fn coded_size()
    ensures { (t : DbType) (v : Value) → size_of t v ≡ length (bytes_of t v) }
{}

/// The bytes of keys stand in the order of the keys: of whole keys and of first components, also of different numbers.
pub fn key_byte_order()
    ensures order { (t : DbType) (key other : List Value) → IsTrue (is_type t) → IsTrue (is_key t key) →
        IsTrue (is_key t other) →
        key_cmp (key_from key) (key_from other) ≡ slice_cmp nat_cmp (key_bytes_of t key) (key_bytes_of t other) }
    // Equal keys have equal bytes.
    ensures same { (t : DbType) (key other : List Value) → IsTrue (is_type t) → IsTrue (is_key t key) →
        IsTrue (is_key t other) → key_cmp (key_from key) (key_from other) ≡ Equal →
        key_bytes_of t key ≡ key_bytes_of t other }
    // The bytes of a key begin those of none that is other, where both have as many components.
    ensures apart { (t : DbType) (key other : List Value) (rest more : List ℕ) → IsTrue (is_type t) →
        IsTrue (is_key t key) → IsTrue (is_key t other) → length key ≡ length other →
        key_bytes_of t key ++ rest ≡ key_bytes_of t other ++ more → key_cmp (key_from key) (key_from other) ≡ Equal }
{}

// Whether two shop sheets are the same, word for word: document 01's join is one of two orders "that pass with one shop sheet". DECISIONS 140.
ghost use Rattle.std.specs.Prelude.{◌≡◌, true, ◌↔◌};
ghost use Rattle.sheet_files.specs.Words.{shop_words};

use sheet_files::words::ShopWords;

// An odd last byte is no part of a sheet, and so makes no difference.
pub fn same_shops(shop: &[u8], other: &[u8]) -> bool
    ensures { (result ≡ true) ↔ (shop_words shop.now ≡ shop_words other.now) }
{
    let mut shop_words = ShopWords::new();
    let mut other_words = ShopWords::new();
    shop_words.read(shop);
    other_words.read(other);
    shop_words.words() == other_words.words()
}

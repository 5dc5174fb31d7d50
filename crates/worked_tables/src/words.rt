// Words of images.
ghost use Rattle.std.specs.Prelude.{◌≡◌, ◌≤◌, ◌↔◌, None, IfSome, length, slice_index};

use entry_word::Image;

/// The word at a place of an image. `None` where the image has no such place.
pub fn word_at(image: &Image, place: usize) -> Option<u64>
    ensures word { IfSome result (λ word. word ≡ slice_index image.now.words.items place) }
    ensures none { (result ≡ None) ↔ (length image.now.words.items ≤ place) }
{
    if place < image.words.len() {
        Some(image.words[place])
    } else {
        None
    }
}

/// The words at a place of the image before a phase and of the one after it. `None` where one of them has no such place.
pub fn change_at(before: &Image, after: &Image, place: usize) -> Option<(u64, u64)>
    ensures was { IfSome result (λ words. words.0 ≡ slice_index before.now.words.items place) }
    ensures is { IfSome result (λ words. words.1 ≡ slice_index after.now.words.items place) }
{
    let was = word_at(before, place)?;
    let is = word_at(after, place)?;
    Some((was, is))
}

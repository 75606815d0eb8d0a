//! Places moved along places.

ghost use Rattle.std.specs.Prelude.{◌≡◌, ◌<◌, length, map, All, slice_index};
ghost use Rattle.dexrows.specs.Joined.{images_of};

/// Replaces each number by the one at its place.
fn compose(image: &mut [u32], places: &[u32])
    requires { All (λ place. place < length places.now) image.old }
    ensures { image.new ≡ map (slice_index places.now) image.old }
{
    for i in 0..image.len() {
        image[i] = places[image[i] as usize];
    }
}

/// Replaces each number of each image by the one at its place.
pub(crate) fn compose_all(images: &mut [Vec<u32>], places: &[u32])
    requires { All (λ image. All (λ place. place < length places.now) image.items) images.old }
    ensures { images_of images.new ≡ map (map (slice_index places.now)) (images_of images.old) }
{
    for i in 0..images.len() {
        compose(&mut images[i], places);
    }
}

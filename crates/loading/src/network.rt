// An accepted image.
ghost use Rattle.loading.specs.Accepted.{Accepted};

use image::Sizes;

// An image that Check accepts, with its sizes.
#[derive(Clone, Copy)]
pub struct Network<'a> {
    pub image: &'a [u8],
    pub sizes: Sizes,
    ghost accepted: { Accepted image.now sizes },
}

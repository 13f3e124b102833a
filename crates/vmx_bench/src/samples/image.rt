//! The image of a guest with the default settings: one queue each way, rings of 512, 256 and 256 descriptors, an MTU
//! of 1,500 bytes, unicast, multicast and broadcast let in, every VLAN, no RSS; and that of one with data rings besides.

use std::alloc::{AllocError, Global};
use vmx_shared_area::{Image, Setup, write};

/// A line for each of the two images.
pub fn put(alloc: Global, text: &mut String) -> Result<(), AllocError> {
    put_image(alloc, text, "Image", &Setup::by_default())?;
    let mut with_data = Setup::by_default();
    with_data.tx_data = true;
    with_data.rx_data = true;
    with_data.strip = true;
    with_data.csum = true;
    put_image(alloc, text, "DataImage", &with_data)
}

/// One line with all bytes of the image of a setup.
fn put_image(
    alloc: Global,
    text: &mut String,
    name: &str,
    setup: &Setup,
) -> Result<(), AllocError> {
    let mut image = Image::new(alloc)?;
    write(setup, &mut image);
    text.push_str(name)?;
    text.push_str(" ")?;
    for byte in image.bytes() {
        write!(text, "{byte:02x}")?;
    }
    text.push_str("\n")
}

// The setup packet: bmRequestType, bRequest, wValue, wIndex and wLength. A byte past its end is 0.
ghost use Rattle.std.specs.Prelude.{◌≡◌, ◌<◌};
ghost use Rattle.request.specs.Setup.{setup_code, setup_selector, setup_w_length, is_set_request, is_get_request};

use wire::uvc;

pub fn code(setup: &[u8]) -> u8
    ensures { result ≡ setup_code setup.now }
{
    wire::byte(setup, 1)
}

// The control that wValue's high byte selects.
pub fn selector(setup: &[u8]) -> u8
    ensures { result ≡ setup_selector setup.now }
{
    wire::byte(setup, 3)
}

pub fn wlength(setup: &[u8]) -> usize
    ensures { (result ≡ setup_w_length setup.now) × (result < 65536) }
{
    wire::le16(setup, 6)
}

// Type 0x21 with SET_CUR.
pub fn is_set_request(setup: &[u8]) -> bool
    ensures { result ≡ is_set_request setup.now }
{
    wire::byte(setup, 0) == 0x21 && code(setup) == uvc::SET_CUR
}

// Type 0xA1 with one of the seven GET codes.
pub(crate) fn is_get_request(setup: &[u8]) -> bool
    ensures { result ≡ is_get_request setup.now }
{
    wire::byte(setup, 0) == 0xA1 && matches!(code(setup), uvc::GET_CUR..=uvc::GET_DEF)
}

//! The SDK that made an event.
ghost use Rattle.std.specs.Prelude.{◌≡◌, OnOk, codes};
ghost use Rattle.json.specs.Tree.{json_tokens};
ghost use Rattle.sentry_framing.specs.Json.{Adds, Puts, optional};
ghost use Rattle.sentry_envelope.specs.Sdks.{sdk_json};

use crate::write_json::{WriteJson, put_items};
use json::Writer;
use sentry_base::protocol::{ClientSdkInfo, ClientSdkPackage};
use sentry_framing::members::put_text;
use sentry_plain::Shared;
use std::alloc::AllocError;

impl WriteJson for ClientSdkPackage {
    ghost use Rattle.sentry_envelope.specs.Sdks.{package_json};

    ghost json = { package_json };

    fn write(&self, out: &mut Writer) -> Result<(), AllocError> {
        out.begin_object()?;
        put_text(out, "name", self.name.as_str())?;
        put_text(out, "version", self.version.as_str())?;
        out.end_object()?;
        Ok(())
    }
}

fn write_sdk(out: &mut Writer, sdk: &ClientSdkInfo) -> Result<(), AllocError>
    ensures { OnOk result (Adds out.old out.new (json_tokens (sdk_json sdk.now))) }
{
    out.begin_object()?;
    put_text(out, "name", sdk.name.as_str())?;
    put_text(out, "version", sdk.version.as_str())?;
    put_items(out, "integrations", sdk.integrations.as_slice())?;
    put_items(out, "packages", sdk.packages.as_slice())?;
    out.end_object()?;
    Ok(())
}

/// Writes the SDK, if it is known.
pub fn put_sdk(out: &mut Writer, sdk: &Option<Shared<ClientSdkInfo>>) -> Result<(), AllocError>
    ensures { OnOk result (Puts out.old out.new (optional sdk_json (codes "sdk") sdk.now)) }
{
    match sdk {
        None => Ok(()),
        Some(sdk) => {
            out.key("sdk")?;
            write_sdk(out, sdk)?;
            Ok(())
        }
    }
}

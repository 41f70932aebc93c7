ghost use Rattle.std.specs.Prelude.{◌≡◌, ◌++◌, OnOk, IfOk};
ghost use Rattle.std.specs.List.{AllByRecursion};
ghost use Rattle.ksi_imprint.specs.Imprints.{IsImprint};
ghost use Rattle.ksi_tlv.specs.Writing.{texts};
ghost use Rattle.ksi_consistency.specs.Elements.{IsFront};
ghost use Rattle.ksi_consistency.specs.File.{IsFrontFile};
ghost use Rattle.ksi_consistency.specs.Written.{front_elements, front_text, imprint_elements};

use crate::laws::written_is_front;
use crate::reader::MAGIC;
use crate::stage::{IMPRINT, NEW, OLD};
use crate::value::Front;
use ksi_imprint::{Bytes, Imprint, NoMemory};
use ksi_tlv::Writer;
use ksi_tlv::grammar::put_short;
use std::alloc::Global;

/// The file of a front, which is read again as the front.
///
/// # Errors
/// `NoMemory`: nothing is written.
pub fn write_front(alloc: Global, front: &Front) -> Result<Bytes, NoMemory>
    ensures text { IfOk result (λ text. text ≡ front_text front.now) }
    ensures again { IfOk result (λ text. IsFrontFile text front.now) }
{
    written_is_front();
    let mut bytes = Vec::with_capacity(alloc, 32 + 35 * front.list().len().min(65))?;
    bytes.extend_from_slice(MAGIC)?;
    let mut writer = Writer::behind(bytes);
    put_elements(&mut writer, front)?;
    Ok(Bytes::from_vec(writer.into_vec()))
}

fn put_elements(writer: &mut Writer, front: &Front) -> Result<(), NoMemory>
    ensures text { OnOk result (writer.new ≡ writer.old ++ texts (front_elements front.now)) }
    ensures front { OnOk result (IsFront front.now) }
{
    writer.put_number(OLD, front.p1())?;
    writer.put_number(NEW, front.p2())?;
    put_imprints(writer, front.list())
}

fn put_imprints(writer: &mut Writer, list: &[Imprint]) -> Result<(), NoMemory>
    ensures text { OnOk result (writer.new ≡ writer.old ++ texts (imprint_elements list.now)) }
    ensures imprints { OnOk result (AllByRecursion IsImprint list.now) }
{
    for imprint in list {
        put_short(writer, IMPRINT, imprint.bytes())?;
    }
    Ok(())
}

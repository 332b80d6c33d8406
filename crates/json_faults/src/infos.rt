//! What is known of an accepted entry point.

ghost use Rattle.json_faults.specs.InfoJson.{info_form};

use crate::parts::three_fields;
use crate::to_json::ToJson;
use crate::writer::JsonWriter;
use ir_facts::FunctionInfo;
use std::alloc::AllocError;

impl ToJson for FunctionInfo {
    ghost form = { info_form };

    #[tactic(auto, unfolding(crate::specs::InfoJson::info_form))]
    fn write_json(&self, out: &mut JsonWriter) -> Result<(), AllocError> {
        three_fields(
            out,
            &("stages", "dual_source_blending", "uses"),
            &self.available_stages,
            &self.dual_source_blending,
            &self.global_uses,
        )
    }
}

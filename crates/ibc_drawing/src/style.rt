//! The looks of pictures, on light paper and on dark.

/// Colours, lines and letters. Words and the forms of lines say what colours say.
pub const STYLE: &str =
    ":root { --ink: #1f2328; --soft: #59636e; --rule: #d0d7de; --paper: #ffffff; --band: #f3f5f7; --bad: #cf222e;
  --packet-0: #1f6feb; --packet-1: #8250df; --packet-2: #0a7f5a; --packet-3: #b35900; --packet-4: #bf3989; --packet-5: #4d6b00 }
@media (prefers-color-scheme: dark) { :root { --ink: #e6edf3; --soft: #9198a1; --rule: #3d444d; --paper: #0d1117; --band: #161b22; --bad: #ff7b72;
  --packet-0: #58a6ff; --packet-1: #bc8cff; --packet-2: #3fb950; --packet-3: #f0883e; --packet-4: #f778ba; --packet-5: #a5c261 } }
text { font: 12.5px system-ui, 'Segoe UI', 'DejaVu Sans', sans-serif; fill: var(--ink); paint-order: stroke; stroke: var(--paper); stroke-width: 4px }
.soft { fill: var(--soft) } .bad { fill: var(--bad) } .title { font-size: 19px; font-weight: 600 } .chain { font-size: 15px; font-weight: 600 }
.paper { fill: var(--paper) } .band { fill: var(--band); stroke: var(--rule) } .lane { stroke: var(--rule); stroke-width: 2 } .inside { stroke: none }
.tick { stroke: var(--soft); stroke-width: 1.5 } .height { font-size: 11px; fill: var(--soft) } .plain { fill: var(--ink) }
.update { stroke: var(--rule); stroke-width: 1.2; stroke-dasharray: 2 3; fill: none } .goes { stroke-width: 2.2; fill: none }
.comes { stroke-width: 1.3; stroke-dasharray: 6 4; fill: none } .bow { stroke-width: 2; stroke-dasharray: 2 4; fill: none }
.missing { fill: var(--paper); stroke: var(--soft); stroke-width: 1.5 }
.refused { fill: var(--paper); stroke: var(--bad); stroke-width: 1.8 } .missed { stroke: var(--bad); stroke-width: 1.4; stroke-dasharray: 5 4; fill: none }
";

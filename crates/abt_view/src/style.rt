//! How a picture looks: what its svg says of colours, stripes and the shapes of marks.

// Colours of the bars, stripes of the bars, the shapes of the marks, and a white ground.
pub(crate) const STYLE: &[u8] = b"<style>
text{font:11px sans-serif}
text.lane,.tick{fill:#555}
path.lane{stroke:#ccc}
.counts{font-weight:bold}
g>rect{stroke:#333;stroke-width:.5}
.frame{fill:#06c;fill-opacity:.08;stroke:#06c}
.arrow{fill:none;stroke:#06c;opacity:.7;marker-end:url(#head)}
.u0{fill:#9ecae1}.u1{fill:#fdae6b}.u2{fill:#a1d99b}.u3{fill:#fa9fb5}.u4{fill:#bcbddc}
.u5{fill:#ffe066}.u6{fill:#80d8c3}.u7{fill:#d9b38c}.u8{fill:#c7e59a}.u9{fill:#d0d0d0}
.t0{fill:none}.t1{fill:url(#t1)}.t2{fill:url(#t2)}.t3{fill:url(#t3)}.t4{fill:url(#t4)}
.t5{fill:url(#t5)}.t6{fill:url(#t6)}.t7{fill:url(#t7)}.t8{fill:url(#t8)}.t9{fill:url(#t9)}
g>.jump{fill:url(#jump);stroke:none}
g>text{fill:#000;paint-order:stroke;stroke:#fff;stroke-width:2.5px;stroke-opacity:.8}
.op{font:8.4px monospace}
use{pointer-events:none}
.quiet>use{pointer-events:all}
.quiet>path{opacity:0;pointer-events:none}
.quiet:hover>path{opacity:.6}
</style>
<defs>
<g stroke='#000' stroke-opacity='.4' fill='none'>
<pattern id='t1' width='6' height='6' patternUnits='userSpaceOnUse'><path d='M3 0v6'/></pattern>
<pattern id='t2' width='6' height='6' patternUnits='userSpaceOnUse'><path d='M0 3h6'/></pattern>
<pattern id='t3' width='6' height='6' patternUnits='userSpaceOnUse'><path d='M-1 1l2 -2M0 6l6 -6M5 7l2 -2'/></pattern>
<pattern id='t4' width='6' height='6' patternUnits='userSpaceOnUse'><path d='M-1 5l2 2M0 0l6 6M5 -1l2 2'/></pattern>
<pattern id='t5' width='6' height='6' patternUnits='userSpaceOnUse'><path d='M3 0v6M0 3h6'/></pattern>
<pattern id='t6' width='6' height='6' patternUnits='userSpaceOnUse'><path d='M0 6l6 -6M0 0l6 6'/></pattern>
<pattern id='t7' width='6' height='6' patternUnits='userSpaceOnUse'><path d='M2 3h2' stroke-width='2'/></pattern>
<pattern id='t8' width='3' height='3' patternUnits='userSpaceOnUse'><path d='M1 0v3'/></pattern>
<pattern id='t9' width='3' height='3' patternUnits='userSpaceOnUse'><path d='M0 1h3'/></pattern>
</g>
<pattern id='jump' width='4' height='4' patternUnits='userSpaceOnUse'><path d='M0 0h4v4H0z' fill='#fff' fill-opacity='.7'/><path d='M0 4l4 -4' stroke='#888'/></pattern>
<marker id='head' viewBox='0 0 6 6' refX='5' refY='3' markerWidth='5' markerHeight='5' orient='auto'><path d='M0 0l6 3l-6 3z' fill='#06c'/></marker>
<path id='tick' d='M0 16V4000' stroke='#eee'/>
<path id='spot' d='M0 20h10v12H0z' fill='none'/>
<path id='miss' d='M3 26h4' stroke='#888'/>
<path id='look' d='M5 24v4' stroke='#888'/>
<path id='take' d='M5 30v-8m-3 3l3 -3l3 3' fill='none' stroke='#333'/>
<path id='put' d='M5 22v8m-3 -3l3 3l3 -3' fill='none' stroke='#333'/>
<path id='step' d='M5 23v6' stroke='#333' stroke-width='2'/>
<path id='call' d='M5 23v6m-3 -3h6' fill='none' stroke='#333' stroke-width='2'/>
<path id='refused' d='M1 22l8 8m0 -8l-8 8' stroke='#d00' stroke-width='2'/>
<path id='done' d='M2 23h6v6h-6z' fill='#333'/>
<path id='asked' d='M2 23h6v6h-6z' fill='none' stroke='#d00'/>
<path id='access' d='M5 22l4 8h-8z' fill='none' stroke='#d00'/>
<path id='own' d='M2 23h6v6h-6z' fill='none' stroke='#333'/>
<path id='enter' d='M2 22l6 4l-6 4z' fill='#06c'/>
<path id='leave' d='M8 22l-6 4l6 4z' fill='#06c'/>
</defs>
<rect width='100%' height='100%' fill='#fff'/>
";

// The kinds of marks, in a row on white; this ends what the names of the streams begin.
pub(crate) const LEGEND: &[u8] = b"<path d='M-8 -8h1000v60H-8z' fill='#fff'/>
<use href='#take' y='-20'/><text x='12' y='10'>take</text>
<use href='#look' x='42' y='-20'/><text x='54' y='10'>look</text>
<use href='#step' x='84' y='-20'/><text x='96' y='10'>step</text>
<use href='#refused' x='126' y='-20'/><text x='140' y='10'>refused</text>
<use href='#put' x='186' y='-20'/><text x='198' y='10'>put</text>
<use href='#miss' x='222' y='-20'/><text x='234' y='10'>miss</text>
<use href='#done' x='264' y='-20'/><text x='277' y='10'>done</text>
<use href='#asked' x='310' y='-20'/><text x='323' y='10'>asked</text>
<use href='#access' x='362' y='-20'/><text x='375' y='10'>access</text>
<use href='#own' x='418' y='-20'/><text x='431' y='10'>own</text>
<use href='#enter' x='458' y='-20'/><text x='470' y='10'>enter</text>
<use href='#leave' x='504' y='-20'/><text x='516' y='10'>leave</text>
<use href='#call' x='552' y='-20'/><text x='565' y='10'>call</text>
<path class='arrow' d='M596 6h18'/><text x='619' y='10'>sent</text>
<path d='M654 1h12v10h-12z' fill='url(#jump)' stroke='#333' stroke-width='.5'/><text x='671' y='10'>jump</text>
</g>
</g></defs>
";
